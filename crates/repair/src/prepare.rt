// Before the passes: chains of ids, and marks of the links in the passes that look at elements of the drawing.
ghost use Rattle.std.specs.Prelude.{◌≡◌, true, false, ℕ, ◌+◌, ◌*◌, ◌<◌, ◌≤◌, length, get_or};
ghost use Rattle.model.specs.Theorems.Kept.{Tidy};
ghost use Rattle.script.specs.Step.{Checked};
ghost use Rattle.places.specs.Marks.{Marked};
ghost use Rattle.tree.specs.Lent.{read_of, Readable};
ghost use Rattle.ids.specs.Chains.{Like, no_heads, Indexed};
ghost use Rattle.leads.specs.Links.{values_of};
ghost use Rattle.targets.specs.Pass.{pass_number};
ghost use Rattle.targets.specs.Targets.{seen_of, Markable};
ghost use Rattle.repair.specs.Passes.{is_sought, Resolved};

use crate::LINK_PASSES;
use crate::pass::{element_code, is_sought};
use ids::chain::chain;
use ids::heads::Heads;
use ids::plain::is_plain;
use places::marks::Marks;
use script::drawing::Drawing;
use targets::name::{Pass, cut_name};
use targets::resolve::resolve;
use tree::Counts;

// Is there room behind the words of importance? Each has to be 0 or 1, and the nodes are to be few enough.
pub fn has_room(attributes: &[u32], counts: Counts) -> bool
    requires { 5 * counts.attributes ≤ length attributes.now }
    ensures { result ≡ true → (counts.nodes < 1073741824) × ((j : ℕ) → j < counts.attributes → get_or attributes.now (5 * j + 1) 0 ≤ 1) }
{
    counts.nodes < 1073741824 && is_plain(attributes, counts.attributes)
}

// Is one of the nodes an element with that code, which has that attribute or a node below it that has?
fn any_sought(nodes: &[u32], attributes: &[u32], counts: Counts, code: u32, name: u32) -> bool
    requires by_index { (m : ℕ) → m < counts.nodes → Readable (read_of nodes.now attributes.now) m }
    requires nodes_in_bounds { 8 * counts.nodes ≤ length nodes.now }
    ensures { result ≡ false → (i : ℕ) → i < counts.nodes → is_sought (seen_of nodes.now attributes.now counts) code name i ≡ false }
{
    (0..counts.nodes).any(|i| is_sought(nodes, attributes, counts, code, name, i))
}

// The marks of one of the passes 1 to 5, where it looks at an element with links at or below it.
#[tactic(auto, using(crate::proofs::Sets::resolve_named_set))]
fn resolve_named(
    drawing: &Drawing,
    marks: &Marks,
    heads: &Heads,
    nodes: &[u32],
    attributes: &mut [u32],
    counts: Counts,
    pass: Pass,
)
    requires markable { Markable drawing.now marks.now heads.now nodes.now attributes.old counts }
    requires pass_bound { pass_number pass ≤ 5 }
    requires resolved_2 { Resolved drawing.now.characters.now (values_of drawing.now) (seen_of nodes.now attributes.old counts)
        (pass_number pass) }
    ensures like { Like counts.attributes attributes.old attributes.new }
    ensures indexed { Indexed drawing.now.characters.now (read_of nodes.now attributes.new) heads.now counts.nodes }
    ensures resolved { Resolved drawing.now.characters.now (values_of drawing.now)
        (seen_of nodes.now attributes.new counts) (pass_number pass + 1) }
{
    let code = element_code(pass);
    let name = cut_name(pass);
    if any_sought(nodes, attributes, counts, code, name) {
        resolve(drawing, marks, heads, nodes, attributes, counts, pass);
    }
}

// The marks of all five passes.
fn resolve_all(
    drawing: &Drawing,
    marks: &Marks,
    heads: &Heads,
    nodes: &[u32],
    attributes: &mut [u32],
    counts: Counts,
)
    requires markable { Markable drawing.now marks.now heads.now nodes.now attributes.old counts }
    ensures like { Like counts.attributes attributes.old attributes.new }
    ensures indexed { Indexed drawing.now.characters.now (read_of nodes.now attributes.new) heads.now counts.nodes }
    ensures resolved { Resolved drawing.now.characters.now (values_of drawing.now) (seen_of nodes.now attributes.new counts) 6 }
{
    for pass in LINK_PASSES {
        resolve_named(drawing, marks, heads, nodes, attributes, counts, pass);
    }
}

// The chains of ids, and the marks if every id stands in its chain.
pub fn prepare(
    drawing: &Drawing,
    marks: &Marks,
    heads: &mut Heads,
    nodes: &[u32],
    attributes: &mut [u32],
    counts: Counts,
)
    requires characters_value { Checked drawing.now }
    requires marked { Marked drawing.now marks.now }
    requires tidy { Tidy (length drawing.now.characters.now) (seen_of nodes.now attributes.old counts) }
    requires heads_none { heads.old ≡ no_heads }
    requires nodes_bound { counts.nodes < 1073741824 }
    ensures like { Like counts.attributes attributes.old attributes.new }
    ensures indexed { Indexed drawing.now.characters.now (read_of nodes.now attributes.new) heads.new counts.nodes }
    ensures resolved { heads.new.is_whole ≡ true
        → Resolved drawing.now.characters.now (values_of drawing.now)
        (seen_of nodes.now attributes.new counts) 6 }
{
    chain(nodes, attributes, drawing.characters, heads, counts);
    if !heads.is_whole {
        return;
    }
    resolve_all(drawing, marks, heads, nodes, attributes, counts);
}
