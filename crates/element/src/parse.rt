// `parse_svg_element`: the entries of an element behind those that are taken, then its node.
ghost use Rattle.std.specs.Prelude.{◌≡◌, List, ℕ, ◌*◌, ◌≤◌, length};
ghost use Rattle.model.specs.Element.{parse_svg_element};
ghost use Rattle.tree.specs.Lent.{tree_of};
ghost use Rattle.walk.specs.Nodes.{element_of};
ghost use Rattle.entries.specs.Space.{Leaves, Above};
ghost use Rattle.element.specs.Runs.{InAttributes, InDeclarations, entries_in, stored_of, RunNodes, Ready, parsed_of, ParsedFit};

use crate::attribute::add_attributes;
use crate::declaration::write_declarations;
use crate::{Parsed, Run};
use entries::Place;
use refusal::Refusal;
use script::cursor::Cursor;
use script::drawing::Drawing;
use tree::room::{attribute_room, node_room};
use tree::write::append;
use tree::{Counts, Kind, NewNode};
use walk::node::Opened;

// The entries of an element, from inside it: those of its attributes, then those of its declarations.
fn store_entries(
    drawing: &Drawing,
    nodes: &[u32],
    attributes: &mut [u32],
    place: Place,
    ignored: bool,
    from: Cursor,
) -> Result<Run, Refusal>
    requires first_le_room { (place.first ≤ place.room) × (5 * place.room ≤ length attributes.old) }
    requires above { Above nodes.now place }
    requires in_attributes { InAttributes drawing.now from × InDeclarations drawing.now from }
    ensures stored { Leaves attributes.old place
        (entries_in drawing.now nodes.now place ignored attributes.old from)
        (stored_of result) attributes.new }
    ensures behind { RunNodes drawing.now from result }
{
    let run = add_attributes(
        drawing,
        nodes,
        attributes,
        place,
        place.first,
        ignored,
        from,
    )?;
    write_declarations(drawing, nodes, attributes, place, run.next, run.behind)
}

// The nodes that may be present before an element is appended.
const MOST_NODES: u32 = 1000000;

// `parse_svg_element`: the element below `parent`, under the name `tag`. Refusals: no entry left, too many nodes, no record left, in this
// order. What a refusal leaves lies behind the counts, in the attribute table alone.
pub fn parse_svg_element(
    drawing: &Drawing,
    nodes: &mut [u32],
    attributes: &mut [u32],
    counts: Counts,
    parent: u32,
    tag: u32,
    ignored: bool,
    e: Opened,
) -> Result<Parsed, Refusal>
    requires ready { Ready nodes.old attributes.old counts parent }
    requires in_attributes { InAttributes drawing.now e.inside × InDeclarations drawing.now e.inside }
    ensures outcome { (bs : List ℕ) → parsed_of nodes.new attributes.new bs result
        ≡ parse_svg_element (element_of drawing.now e) tag ignored parent
        (tree_of nodes.old attributes.old bs counts) }
    ensures behind { ParsedFit drawing.now e.inside result }
{
    let place = Place {
        parent,
        tag,
        first: counts.attributes,
        room: attribute_room(attributes),
    };
    let stored = store_entries(drawing, nodes, attributes, place, ignored, e.inside);
    let Ok(run) = stored else {
        return Err(Refusal::AttributesFull);
    };
    if counts.nodes > MOST_NODES {
        return Err(Refusal::ElementsLimitReached);
    }
    if node_room(nodes) <= counts.nodes {
        return Err(Refusal::NodesFull);
    }
    let node = NewNode {
        kind: u32::from(Kind::Element),
        code: tag,
        from: counts.attributes,
        to: run.next,
    };
    append(nodes, node, parent, counts.nodes);
    let taken = Counts {
        nodes: counts.nodes + 1,
        attributes: run.next,
        text: counts.text,
    };
    Ok(Parsed {
        counts: taken,
        behind: run.behind,
    })
}
