// The last pass: each feImage, one after another. It cuts as it finds: a filter that is cut has no link left, so that no node is cut twice.
ghost use Rattle.std.specs.Prelude.{◌≡◌, [], ◌∷◌, ◌<◌};
ghost use Rattle.model.specs.Repair.{applied};
ghost use Rattle.model.specs.Theorems.Images.{pass_on};
ghost use Rattle.script.specs.Step.{Fit};
ghost use Rattle.leads.specs.Links.{values_of};
ghost use Rattle.targets.specs.Targets.{seen_of};
ghost use Rattle.cuts.specs.Seen.{Mendable};
ghost use Rattle.repair.specs.Passes.{image_cuts};

use crate::image::image_of;
use crate::pass::is_named;
use cuts::cut::cut;
use ids::heads::Heads;
use names::eid;
use places::marks::Marks;
use script::cursor::Cursor;
use script::drawing::Drawing;
use targets::name::Pass;
use tree::Counts;

// Node i, where it is a feImage: the filter of the node that it leads to is cut, if it leads back.
#[tactic(auto, using(crate::proofs::Sets::cut_image_set))]
fn cut_image(
    drawing: &Drawing,
    marks: &Marks,
    heads: &Heads,
    nodes: &[u32],
    attributes: &mut [u32],
    counts: Counts,
    i: u32,
    hint: Cursor,
) -> Cursor
    requires mendable { Mendable drawing.now marks.now heads.now nodes.now attributes.old counts hint }
    requires i_lt_nodes { i < counts.nodes }
    ensures tables { seen_of nodes.now attributes.new counts
        ≡ applied (seen_of nodes.now attributes.old counts)
        (image_cuts drawing.now.characters.now (values_of drawing.now)
        (seen_of nodes.now attributes.old counts) (i ∷ [])) }
    ensures fit { Fit drawing.now result }
{
    if !is_named(nodes, eid::FE_IMAGE, i) {
        return hint;
    }
    let image = image_of(drawing, marks, heads, nodes, attributes, counts, i, hint);
    if let Some(node) = image.node {
        cut(nodes, attributes, Pass::FeImage, node);
    }
    image.hint
}

// Pass 6.
pub fn cut_images(
    drawing: &Drawing,
    marks: &Marks,
    heads: &Heads,
    nodes: &[u32],
    attributes: &mut [u32],
    counts: Counts,
    hint: Cursor,
) -> Cursor
    requires { Mendable drawing.now marks.now heads.now nodes.now attributes.old counts hint }
    ensures tables { seen_of nodes.now attributes.new counts
        ≡ applied (seen_of nodes.now attributes.old counts)
        (pass_on drawing.now.characters.now (values_of drawing.now) 6
        (seen_of nodes.now attributes.old counts)) }
    ensures fit { Fit drawing.now result }
{
    let mut c = hint;
    for i in 0..counts.nodes {
        c = cut_image(drawing, marks, heads, nodes, attributes, counts, i, c);
    }
    c
}
