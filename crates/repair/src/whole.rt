// The repairs, all six passes in their order.
ghost use Rattle.std.specs.Prelude.{◌≡◌, true, List, ℕ, length, get_or};
ghost use Rattle.model.specs.Repair.{applied, repaired};
ghost use Rattle.model.specs.Theorems.Kept.{Tidy};
ghost use Rattle.script.specs.Step.{Checked};
ghost use Rattle.places.specs.Marks.{Marked};
ghost use Rattle.tree.specs.Lent.{tree_of, read_of};
ghost use Rattle.ids.specs.Chains.{Indexed};
ghost use Rattle.leads.specs.Links.{values_of};
ghost use Rattle.targets.specs.Targets.{seen_of};
ghost use Rattle.repair.specs.Passes.{all_passes, Resolved};

use crate::LINK_PASSES;
use crate::images::cut_images;
use crate::linked::any_linked;
use crate::pass::cut_pass;
use crate::prepare::{has_room, prepare};
use ids::heads::Heads;
use ids::plain::unchain;
use places::marks::{Marks, set_marks};
use script::cursor::Cursor;
use script::drawing::Drawing;
use tree::Counts;

// The passes.
#[tactic(auto, using(crate::proofs::Sets::mend_set))]
fn mend(
    drawing: &Drawing,
    marks: &Marks,
    heads: &Heads,
    quiet: &mut [u32; 4096],
    nodes: &[u32],
    attributes: &mut [u32],
    counts: Counts,
)
    requires characters_value { Checked drawing.now }
    requires marked { Marked drawing.now marks.now }
    requires tidy { Tidy (length drawing.now.characters.now) (seen_of nodes.now attributes.old counts) }
    requires indexed { Indexed drawing.now.characters.now (read_of nodes.now attributes.old) heads.now counts.nodes }
    requires resolved { heads.now.is_whole ≡ true
        → Resolved drawing.now.characters.now (values_of drawing.now) (seen_of nodes.now attributes.old counts) 6 }
    ensures { seen_of nodes.now attributes.new counts
        ≡ applied (seen_of nodes.now attributes.old counts)
        (all_passes drawing.now.characters.now (values_of drawing.now)
        (seen_of nodes.now attributes.old counts)) }
{
    for pass in LINK_PASSES {
        cut_pass(
            drawing, marks, heads, quiet, nodes, attributes, counts, pass,
        );
    }
    cut_images(
        drawing,
        marks,
        heads,
        nodes,
        attributes,
        counts,
        Cursor::start(),
    );
}

// The attributes with the repairs, whatever the text table has: no repair reads it. Where no element has links to repair, the nodes are
// looked through once, and nothing else is done. Where there is no room behind the words of importance nothing is prepared.
pub fn repair(drawing: &Drawing, nodes: &[u32], attributes: &mut [u32], counts: Counts)
    requires characters_value { Checked drawing.now }
    requires tidy { Tidy (length drawing.now.characters.now) (seen_of nodes.now attributes.old counts) }
    ensures { (bs : List ℕ) → tree_of nodes.now attributes.new bs counts
        ≡ repaired drawing.now.characters.now (values_of drawing.now)
        (tree_of nodes.now attributes.old bs counts) }
{
    if !any_linked(nodes, counts.nodes) {
        return;
    }
    let mut marks = Marks::new();
    set_marks(drawing, &mut marks);
    let mut heads = Heads::new();
    let mut quiet: [u32; 4096] = [0; 4096];
    if !has_room(attributes, counts) {
        mend(
            drawing, &marks, &heads, &mut quiet, nodes, attributes, counts,
        );
        return;
    }
    prepare(drawing, &marks, &mut heads, nodes, attributes, counts);
    mend(
        drawing, &marks, &heads, &mut quiet, nodes, attributes, counts,
    );
    unchain(attributes, counts.attributes);
}
