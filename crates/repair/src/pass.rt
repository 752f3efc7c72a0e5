// One pass: each element that it looks at, one after another.
ghost use Rattle.std.specs.Prelude.{◌≡◌, ℕ, [], ◌∷◌, ◌+◌, ◌*◌, ◌<◌, ◌≤◌, length};
ghost use Rattle.model.specs.Tables.{is_named};
ghost use Rattle.model.specs.Repair.{applied};
ghost use Rattle.model.specs.Theorems.GoingOn.{element_of};
ghost use Rattle.model.specs.Theorems.Images.{pass_on};
ghost use Rattle.tree.specs.Lent.{nodes_read, read_of, Readable};
ghost use Rattle.leads.specs.Links.{values_of};
ghost use Rattle.targets.specs.Pass.{pass_number};
ghost use Rattle.targets.specs.Targets.{seen_of};
ghost use Rattle.cuts.specs.Seen.{Known};
ghost use Rattle.repair.specs.Passes.{link_cuts, is_sought, Passable};

use cuts::Aim;
use cuts::below::has_links;
use cuts::pair::cut_element;
use ids::heads::Heads;
use names::eid;
use places::marks::Marks;
use script::drawing::Drawing;
use targets::name::{Pass, cut_name};
use tree::word::{has_kind, node_word};
use tree::{Counts, Kind, word};

// The elements that one of the passes 1 to 5 looks at.
pub fn element_code(pass: Pass) -> u32
    requires { pass_number pass ≤ 5 }
    ensures { result ≡ element_of (pass_number pass) }
{
    match pass {
        Pass::PatternFill | Pass::PatternStroke => eid::PATTERN,
        Pass::ClipPath => eid::CLIP_PATH,
        Pass::Mask => eid::MASK,
        Pass::Filter | Pass::FeImage => eid::FILTER,
    }
}

// Is node i an element with that code?
pub fn is_named(nodes: &[u32], code: u32, i: u32) -> bool
    requires { 8 * i + 7 < length nodes.now }
    ensures { result ≡ is_named (nodes_read nodes.now) code i }
{
    has_kind(nodes, i, Kind::Element) && node_word(nodes, i, word::CODE) == code
}

// Is node i an element with that code, which has that attribute or a node below it that has?
pub fn is_sought(
    nodes: &[u32],
    attributes: &[u32],
    counts: Counts,
    code: u32,
    name: u32,
    i: u32,
) -> bool
    requires by_index { (m : ℕ) → m < counts.nodes → Readable (read_of nodes.now attributes.now) m }
    requires i_lt_nodes { (i < counts.nodes) × (8 * counts.nodes ≤ length nodes.now) }
    ensures { result ≡ is_sought (seen_of nodes.now attributes.now counts) code name i }
{
    is_named(nodes, code, i) && has_links(nodes, attributes, counts, name, i)
}

// Node i, where it is an element that the pass looks at, with links at or below it. What is known was found for an element before it.
#[tactic(auto, using(crate::proofs::Sets::cut_named_set))]
fn cut_named(
    drawing: &Drawing,
    marks: &Marks,
    heads: &Heads,
    quiet: &mut [u32; 4096],
    nodes: &[u32],
    attributes: &mut [u32],
    counts: Counts,
    pass: Pass,
    code: u32,
    known: Option<Aim>,
    i: u32,
) -> Option<Aim>
    requires passable { Passable drawing.now marks.now heads.now nodes.now attributes.old counts (pass_number pass) }
    requires pass_bound { pass_number pass ≤ 5 }
    requires code_value { code ≡ element_of (pass_number pass) }
    requires i_lt_nodes { i < counts.nodes }
    requires known_2 { Known drawing.now.characters.now (values_of drawing.now) (pass_number pass)
        (seen_of nodes.now attributes.old counts) known quiet.old }
    ensures tables { seen_of nodes.now attributes.new counts
        ≡ applied (seen_of nodes.now attributes.old counts)
        (link_cuts drawing.now.characters.now (values_of drawing.now) (pass_number pass) code
        (seen_of nodes.now attributes.old counts) (i ∷ [])) }
    ensures known { Known drawing.now.characters.now (values_of drawing.now) (pass_number pass)
        (seen_of nodes.now attributes.new counts) result quiet.new }
{
    if !is_sought(nodes, attributes, counts, code, cut_name(pass), i) {
        return known;
    }
    cut_element(
        drawing, marks, heads, quiet, nodes, attributes, counts, pass, known, i,
    )
}

// One of the passes 1 to 5.
pub fn cut_pass(
    drawing: &Drawing,
    marks: &Marks,
    heads: &Heads,
    quiet: &mut [u32; 4096],
    nodes: &[u32],
    attributes: &mut [u32],
    counts: Counts,
    pass: Pass,
)
    requires passable { Passable drawing.now marks.now heads.now nodes.now attributes.old counts (pass_number pass) }
    requires pass_bound { pass_number pass ≤ 5 }
    ensures { seen_of nodes.now attributes.new counts
        ≡ applied (seen_of nodes.now attributes.old counts)
        (pass_on drawing.now.characters.now (values_of drawing.now) (pass_number pass)
        (seen_of nodes.now attributes.old counts)) }
{
    let code = element_code(pass);
    let mut known = None;
    for i in 0..counts.nodes {
        known = cut_named(
            drawing, marks, heads, quiet, nodes, attributes, counts, pass, code, known, i,
        );
    }
}
