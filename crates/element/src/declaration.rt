// The declarations of an element: what they become.
ghost use Rattle.model.specs.Base.{folded};
ghost use Rattle.walk.specs.Values.{declarations_in};
ghost use Rattle.entries.specs.Space.{Space, Leaves, so_far, Above};
ghost use Rattle.element.specs.Font.{Held, declaration_of, declared_in};
ghost use Rattle.element.specs.Runs.{InDeclarations, stored_of, RunNodes};

use crate::font::insert_font;
use crate::{Run, value_of};
use entries::Place;
use entries::insert::{insert_attribute, insert_marker};
use names::{aid, is_presentation};
use refusal::Refusal;
use script::cursor::Cursor;
use script::drawing::Drawing;
use walk::value::{Named, next_declaration};

// The number that stands for `marker` among declarations.
const MARKER: u32 = 254;

// `write_declaration`: the three names of `marker`, a font, a name that declarations may set, or nothing.
pub fn write_declaration(
    drawing: &Drawing,
    nodes: &[u32],
    attributes: &mut [u32],
    place: Place,
    next: u32,
    x: Named,
) -> Result<u32, Refusal>
    requires space { Space attributes.old place next }
    requires above { Above nodes.now place }
    requires held { Held drawing.now x.value }
    ensures { Leaves attributes.old place
        (declared_in nodes.now place attributes.old (so_far attributes.old place next)
        (declaration_of drawing.now x.name x.qualifier x.value)) result attributes.new }
{
    let value = value_of(x.value);
    let name = u32::from(x.name);
    let important = u32::from(x.qualifier);
    if name == MARKER {
        return insert_marker(
            nodes,
            attributes,
            drawing.characters,
            place,
            next,
            important,
            value,
        );
    }
    if name == aid::FONT {
        return insert_font(drawing, nodes, attributes, place, next, important, x.value);
    }
    if !is_presentation(name) {
        return Ok(next);
    }
    insert_attribute(
        nodes,
        attributes,
        drawing.characters,
        place,
        next,
        name,
        important,
        value,
    )
}

// The declarations of an element, from inside it: each is written, one after another.
pub fn write_declarations(
    drawing: &Drawing,
    nodes: &[u32],
    attributes: &mut [u32],
    place: Place,
    next: u32,
    from: Cursor,
) -> Result<Run, Refusal>
    requires space { Space attributes.old place next }
    requires above { Above nodes.now place }
    requires in_declarations { InDeclarations drawing.now from }
    ensures stored { Leaves attributes.old place
        (folded (declared_in nodes.now place attributes.old) (so_far attributes.old place next)
        (declarations_in drawing.now from)) (stored_of result) attributes.new }
    ensures behind { RunNodes drawing.now from result }
{
    let mut c = from;
    let mut n = next;
    loop {
        match next_declaration(drawing, c) {
            Ok(x) => {
                n = write_declaration(drawing, nodes, attributes, place, n, x)?;
                c = x.value.behind;
            }
            Err(behind) => {
                return Ok(Run { next: n, behind });
            }
        }
    }
}
