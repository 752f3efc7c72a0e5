// The attributes of an element, one after another.
ghost use Rattle.model.specs.Base.{folded};
ghost use Rattle.walk.specs.Values.{attributes_in};
ghost use Rattle.entries.specs.Space.{Space, Leaves, so_far, Above};
ghost use Rattle.element.specs.Runs.{InAttributes, added_in, stored_of, RunRest};

use crate::{Run, value_of};
use entries::Place;
use entries::attribute::add_attribute;
use refusal::Refusal;
use script::cursor::Cursor;
use script::drawing::Drawing;
use walk::value::next_attribute;

// The attributes of an element, from inside it, one after another.
// `write_declarations` walks in the same way; a function for both would need a trait with laws for what is stored, and be longer.
pub fn add_attributes(
    drawing: &Drawing,
    nodes: &[u32],
    attributes: &mut [u32],
    place: Place,
    next: u32,
    ignored: bool,
    from: Cursor,
) -> Result<Run, Refusal>
    requires space { Space attributes.old place next }
    requires above { Above nodes.now place }
    requires in_attributes { InAttributes drawing.now from }
    ensures stored { Leaves attributes.old place
        (folded (added_in nodes.now place ignored attributes.old) (so_far attributes.old place next)
        (attributes_in drawing.now from)) (stored_of result) attributes.new }
    ensures behind { RunRest drawing.now from result }
{
    let mut c = from;
    let mut n = next;
    loop {
        match next_attribute(drawing, c) {
            Ok(x) => {
                n = add_attribute(
                    nodes,
                    attributes,
                    drawing.characters,
                    place,
                    n,
                    ignored,
                    x.name,
                    x.qualifier,
                    value_of(x.value),
                )?;
                c = x.value.behind;
            }
            Err(behind) => {
                return Ok(Run { next: n, behind });
            }
        }
    }
}
