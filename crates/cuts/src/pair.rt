// An element, and the nodes below it one after another: what leads back to the element is cut, at the node or below where that leads.
ghost use Rattle.std.specs.Prelude.{◌≡◌, [], ◌-◌, ◌<◌, ◌≤◌, Some};
ghost use Rattle.model.specs.Repair.{up_from, descendants};
ghost use Rattle.model.specs.Theorems.GoingOn.{leads_to, passing, nodes_at, with_each};
ghost use Rattle.leads.specs.Links.{values_of};
ghost use Rattle.targets.specs.Pass.{pass_number};
ghost use Rattle.targets.specs.Targets.{seen_of};
ghost use Rattle.cuts.specs.Seen.{Cuttable, Aimed, Quiet, Known, Settled, cut_nodes, cut_pairs};

use crate::Aim;
use crate::back::cut_below;
use crate::below::{behind_below, first_with};
use crate::cut::cut;
use crate::key::key_of;
use crate::quiet::{forget, hush, is_quiet};
use ids::heads::Heads;
use places::marks::Marks;
use script::drawing::Drawing;
use targets::mark::mark_of;
use targets::name::{Pass, cut_name};
use tree::Counts;

// What leads back at or below node w; nothing, where w is known to be quiet.
#[tactic(auto, using(crate::proofs::Sets::cut_target_set))]
fn cut_target(
    drawing: &Drawing,
    marks: &Marks,
    heads: &Heads,
    quiet: &mut [u32; 4096],
    nodes: &[u32],
    attributes: &mut [u32],
    counts: Counts,
    aim: Aim,
    w: u32,
)
    requires cuttable { Cuttable drawing.now marks.now heads.now nodes.now attributes.old counts (pass_number aim.pass) }
    requires aimed { Aimed drawing.now.characters.now (seen_of nodes.now attributes.old counts) aim }
    requires quiet_2 { Quiet drawing.now.characters.now (values_of drawing.now) (pass_number aim.pass)
        (seen_of nodes.now attributes.old counts) aim.element quiet.old }
    requires w_lt_nodes { w < counts.nodes }
    ensures tables { seen_of nodes.now attributes.new counts
        ≡ cut_nodes drawing.now.characters.now (values_of drawing.now) (pass_number aim.pass)
        (seen_of nodes.now attributes.old counts)
        (passing (leads_to drawing.now.characters.now (values_of drawing.now) (pass_number aim.pass)
        (seen_of nodes.now attributes.old counts) aim.element)
        (descendants (seen_of nodes.now attributes.old counts) w)) }
    ensures quiet { Quiet drawing.now.characters.now (values_of drawing.now) (pass_number aim.pass)
        (seen_of nodes.now attributes.new counts) aim.element quiet.new }
{
    if is_quiet(quiet, w) {
        return;
    }
    let end = cut_below(
        drawing, marks, heads, quiet, nodes, attributes, counts, aim, w,
    );
    hush(quiet, w, end);
}

// Node j below the element that is aimed at: it is cut if its link leads back; else what leads back below the node that it leads to.
#[tactic(auto, using(crate::proofs::Sets::cut_pair_set))]
fn cut_pair(
    drawing: &Drawing,
    marks: &Marks,
    heads: &Heads,
    quiet: &mut [u32; 4096],
    nodes: &[u32],
    attributes: &mut [u32],
    counts: Counts,
    aim: Aim,
    j: u32,
)
    requires cuttable { Cuttable drawing.now marks.now heads.now nodes.now attributes.old counts (pass_number aim.pass) }
    requires aimed { Aimed drawing.now.characters.now (seen_of nodes.now attributes.old counts) aim }
    requires quiet_2 { Quiet drawing.now.characters.now (values_of drawing.now) (pass_number aim.pass)
        (seen_of nodes.now attributes.old counts) aim.element quiet.old }
    requires j_lt_nodes { j < counts.nodes }
    ensures tables { seen_of nodes.now attributes.new counts
        ≡ cut_nodes drawing.now.characters.now (values_of drawing.now) (pass_number aim.pass)
        (seen_of nodes.now attributes.old counts)
        (nodes_at drawing.now.characters.now (values_of drawing.now) (pass_number aim.pass)
        (seen_of nodes.now attributes.old counts) aim.element j) }
    ensures quiet { Quiet drawing.now.characters.now (values_of drawing.now) (pass_number aim.pass)
        (seen_of nodes.now attributes.new counts) aim.element quiet.new }
{
    let mark = mark_of(
        drawing, marks, heads, nodes, attributes, counts, aim.pass, j,
    );
    if mark == aim.key {
        cut(nodes, attributes, aim.pass, j);
        return;
    }
    if mark < 2 {
        return;
    }
    let w = (mark - 2) as u32;
    cut_target(
        drawing, marks, heads, quiet, nodes, attributes, counts, aim, w,
    );
}

// The words for an element that is aimed at. They stay where they hold for an element with the same key, since the same links lead to both.
fn settle(quiet: &mut [u32; 4096], count: u32, known: Option<Aim>, aim: Aim)
    ensures { Settled count known aim quiet.old quiet.new }
{
    if let Some(k) = known
        && k.key == aim.key
    {
        return;
    }
    forget(quiet, count);
}

// The element that is aimed at with each node from first up to end. What is known was found for the element that was aimed at before.
#[tactic(auto, using(crate::proofs::Sets::cut_pairs_set))]
fn cut_pairs(
    drawing: &Drawing,
    marks: &Marks,
    heads: &Heads,
    quiet: &mut [u32; 4096],
    nodes: &[u32],
    attributes: &mut [u32],
    counts: Counts,
    known: Option<Aim>,
    aim: Aim,
    first: u32,
    end: u32,
)
    requires cuttable { Cuttable drawing.now marks.now heads.now nodes.now attributes.old counts (pass_number aim.pass) }
    requires aimed { Aimed drawing.now.characters.now (seen_of nodes.now attributes.old counts) aim }
    requires end_le_nodes { end ≤ counts.nodes }
    requires known_2 { Known drawing.now.characters.now (values_of drawing.now) (pass_number aim.pass)
        (seen_of nodes.now attributes.old counts) known quiet.old }
    ensures tables { seen_of nodes.now attributes.new counts
        ≡ cut_pairs drawing.now.characters.now (values_of drawing.now) (pass_number aim.pass)
        (seen_of nodes.now attributes.old counts)
        (with_each aim.element (up_from first (end - first)) []) }
    ensures known { Known drawing.now.characters.now (values_of drawing.now) (pass_number aim.pass)
        (seen_of nodes.now attributes.new counts) (Some aim) quiet.new }
{
    settle(quiet, counts.nodes, known, aim);
    for j in first..end {
        cut_pair(
            drawing, marks, heads, quiet, nodes, attributes, counts, aim, j,
        );
    }
}

// Element i with itself and each node below it. Where none of them has a link, or no link can lead to the element, there is nothing to cut.
// Answers the element for which the words hold then.
pub fn cut_element(
    drawing: &Drawing,
    marks: &Marks,
    heads: &Heads,
    quiet: &mut [u32; 4096],
    nodes: &[u32],
    attributes: &mut [u32],
    counts: Counts,
    pass: Pass,
    known: Option<Aim>,
    i: u32,
) -> Option<Aim>
    requires cuttable { Cuttable drawing.now marks.now heads.now nodes.now attributes.old counts (pass_number pass) }
    requires pass_bound { pass_number pass ≤ 5 }
    requires i_lt_nodes { i < counts.nodes }
    requires known_2 { Known drawing.now.characters.now (values_of drawing.now) (pass_number pass)
        (seen_of nodes.now attributes.old counts) known
        quiet.old }
    ensures tables { seen_of nodes.now attributes.new counts
        ≡ cut_pairs drawing.now.characters.now (values_of drawing.now) (pass_number pass)
        (seen_of nodes.now attributes.old counts)
        (with_each i (descendants (seen_of nodes.now attributes.old counts) i) []) }
    ensures known { Known drawing.now.characters.now (values_of drawing.now) (pass_number pass)
        (seen_of nodes.now attributes.new counts) result quiet.new }
{
    let name = cut_name(pass);
    let end = behind_below(nodes, counts.nodes, i);
    let Some(first) = first_with(nodes, attributes, name, i, end) else {
        return known;
    };
    let Some(key) = key_of(
        nodes,
        attributes,
        drawing.characters,
        heads,
        counts,
        u32::from(pass),
        i,
    ) else {
        return known;
    };
    let aim = Aim {
        pass,
        element: i,
        key,
    };
    cut_pairs(
        drawing, marks, heads, quiet, nodes, attributes, counts, known, aim, first, end,
    );
    Some(aim)
}
