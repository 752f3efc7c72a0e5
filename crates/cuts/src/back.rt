// Links that lead back to one element are cut.
ghost use Rattle.std.specs.Prelude.{◌≡◌, ◌<◌, ◌≤◌};
ghost use Rattle.model.specs.Repair.{descendants};
ghost use Rattle.model.specs.Theorems.GoingOn.{leads_to, passing};
ghost use Rattle.leads.specs.Links.{values_of};
ghost use Rattle.targets.specs.Pass.{pass_number};
ghost use Rattle.targets.specs.Targets.{seen_of};
ghost use Rattle.cuts.specs.Seen.{Cuttable, Aimed, cut_back, cut_nodes, Range, Silent, Quiet, Onward};

use crate::Aim;
use crate::below::behind_target;
use crate::cut::cut;
use crate::quiet::behind_quiet;
use ids::heads::Heads;
use places::marks::Marks;
use script::drawing::Drawing;
use targets::mark::mark_of;
use tree::Counts;

// Node m, cut where its link leads back.
#[tactic(auto, using(crate::proofs::Sets::cut_back_set))]
fn cut_back(
    drawing: &Drawing,
    marks: &Marks,
    heads: &Heads,
    nodes: &[u32],
    attributes: &mut [u32],
    counts: Counts,
    aim: Aim,
    m: u32,
)
    requires cuttable { Cuttable drawing.now marks.now heads.now nodes.now attributes.old counts (pass_number aim.pass) }
    requires aimed { Aimed drawing.now.characters.now (seen_of nodes.now attributes.old counts) aim }
    requires m_lt_nodes { m < counts.nodes }
    ensures { seen_of nodes.now attributes.new counts
        ≡ cut_back drawing.now.characters.now (values_of drawing.now) (pass_number aim.pass) aim.element
        (seen_of nodes.now attributes.old counts) m }
{
    let mark = mark_of(
        drawing, marks, heads, nodes, attributes, counts, aim.pass, m,
    );
    if mark == aim.key {
        cut(nodes, attributes, aim.pass, m);
    }
}

// Node m, cut where its link leads back, or passed over with the nodes below it, if it is remembered. Answers the node to go on at.
fn cut_next(
    drawing: &Drawing,
    marks: &Marks,
    heads: &Heads,
    quiet: &[u32; 4096],
    nodes: &[u32],
    attributes: &mut [u32],
    counts: Counts,
    aim: Aim,
    m: u32,
    end: u32,
) -> u32
    requires cuttable { Cuttable drawing.now marks.now heads.now nodes.now attributes.old counts (pass_number aim.pass) }
    requires aimed { Aimed drawing.now.characters.now (seen_of nodes.now attributes.old counts) aim }
    requires quiet { Quiet drawing.now.characters.now (values_of drawing.now) (pass_number aim.pass)
        (seen_of nodes.now attributes.old counts) aim.element quiet.now }
    requires m_lt_end { (m < end) × (end ≤ counts.nodes) }
    ensures tables { seen_of nodes.now attributes.new counts
        ≡ cut_back drawing.now.characters.now (values_of drawing.now) (pass_number aim.pass) aim.element
        (seen_of nodes.now attributes.old counts) m }
    ensures onward { Onward drawing.now.characters.now (values_of drawing.now) (pass_number aim.pass)
        (seen_of nodes.now attributes.old counts) aim.element m end result }
{
    let Some(n) = behind_quiet(quiet, m) else {
        cut_back(drawing, marks, heads, nodes, attributes, counts, aim, m);
        return m + 1;
    };
    n.min(end)
}

// Node w and the nodes below it, one after another. The search goes on behind a cut and does not start over. Answers the node behind them.
#[tactic(auto, using(crate::proofs::Sets::cut_below_set))]
pub fn cut_below(
    drawing: &Drawing,
    marks: &Marks,
    heads: &Heads,
    quiet: &[u32; 4096],
    nodes: &[u32],
    attributes: &mut [u32],
    counts: Counts,
    aim: Aim,
    w: u32,
) -> u32
    requires cuttable { Cuttable drawing.now marks.now heads.now nodes.now attributes.old counts (pass_number aim.pass) }
    requires aimed { Aimed drawing.now.characters.now (seen_of nodes.now attributes.old counts) aim }
    requires quiet { Quiet drawing.now.characters.now (values_of drawing.now) (pass_number aim.pass)
        (seen_of nodes.now attributes.old counts) aim.element quiet.now }
    requires w_lt_nodes { w < counts.nodes }
    ensures tables { seen_of nodes.now attributes.new counts
        ≡ cut_nodes drawing.now.characters.now (values_of drawing.now) (pass_number aim.pass)
        (seen_of nodes.now attributes.old counts)
        (passing (leads_to drawing.now.characters.now (values_of drawing.now) (pass_number aim.pass)
        (seen_of nodes.now attributes.old counts) aim.element)
        (descendants (seen_of nodes.now attributes.old counts) w)) }
    ensures range { Range nodes.now counts.nodes w result }
    ensures silent { Silent drawing.now.characters.now (values_of drawing.now) (pass_number aim.pass)
        (seen_of nodes.now attributes.new counts) aim.element w result }
{
    let end = behind_target(quiet, nodes, counts.nodes, w);
    let mut m = w;
    while m < end {
        m = cut_next(
            drawing, marks, heads, quiet, nodes, attributes, counts, aim, m, end,
        );
    }
    end
}
