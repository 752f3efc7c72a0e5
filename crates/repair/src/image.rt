// feImage: an image of an element whose own filters lead back to the filter in which the image stands.
ghost use Rattle.std.specs.Prelude.{◌≡◌, ◌<◌, IfSome};
ghost use Rattle.tree.specs.Lent.{plus_one};
ghost use Rattle.model.specs.Tables.{ELEMENT, word};
ghost use Rattle.model.specs.Repair.{recursive_fe_image};
ghost use Rattle.script.specs.Step.{Fit};
ghost use Rattle.leads.specs.Links.{values_of};
ghost use Rattle.targets.specs.Targets.{seen_of};
ghost use Rattle.cuts.specs.Seen.{Mendable};

use ids::find::find_id;
use ids::heads::Heads;
use leads::filter::has_filter;
use leads::link::link_of;
use names::aid;
use places::marks::Marks;
use script::cursor::Cursor;
use script::drawing::Drawing;
use tree::read::attribute_id;
use tree::word::node_word;
use tree::{Counts, word};
use walk::value::part_at;

// The node that a feImage cuts, and a place in the script from which to look for the next link.
#[derive(Clone, Copy)]
pub struct Image {
    pub node: Option<u32>,
    pub hint: Cursor,
}

// The node that the feImage i leads to, where one of that node's filters leads to i's parent.
#[tactic(auto, using(crate::proofs::Sets::image_of_set), unfolding(model::specs::Drawing::part_at))]
pub fn image_of(
    drawing: &Drawing,
    marks: &Marks,
    heads: &Heads,
    nodes: &[u32],
    attributes: &[u32],
    counts: Counts,
    i: u32,
    hint: Cursor,
) -> Image
    requires mendable { Mendable drawing.now marks.now heads.now nodes.now attributes.now counts hint }
    requires i_lt_nodes { i < counts.nodes }
    requires i_value { word nodes.now i 0 ≡ ELEMENT }
    ensures same { plus_one result.node ≡ recursive_fe_image drawing.now.characters.now (values_of drawing.now)
        (seen_of nodes.now attributes.now counts) i }
    ensures within { IfSome result.node (λ w. w < counts.nodes) }
    ensures fit { Fit drawing.now result.hint }
{
    let found = link_of(drawing, marks, nodes, attributes, i, aid::HREF, 1, hint);
    let nothing = Image {
        node: None,
        hint: found.hint,
    };
    let Some(p) = found.part else {
        return nothing;
    };
    let target = part_at(drawing.characters, p.start, p.len);
    let Some(w) = find_id(
        nodes,
        attributes,
        drawing.characters,
        heads,
        target,
        counts.nodes,
    ) else {
        return nothing;
    };
    let parent = node_word(nodes, i, word::PARENT) - 1;
    let id = attribute_id(nodes, attributes, parent, aid::ID);
    let filtered = has_filter(drawing, marks, nodes, attributes, w, id, found.hint);
    if filtered.back {
        return Image {
            node: Some(w),
            hint: filtered.hint,
        };
    }
    Image {
        node: None,
        hint: filtered.hint,
    }
}
