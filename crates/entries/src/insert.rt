// One value of a declaration: what it becomes under one name, and under the three of `marker`.
ghost use Rattle.std.specs.Prelude.{[], ◌∷◌, ◌+◌, ◌≤◌, length};
ghost use Rattle.model.specs.Base.{folded};
ghost use Rattle.model.specs.AId;
ghost use Rattle.entries.specs.Space.{Space, Leaves, so_far, Above, inserted};

use crate::entry::insert_entry;
use crate::inherit::append_attribute;
use crate::{Place, Value};
use names::aid;
use refusal::Refusal;

// `insert_attribute`: the value under that name replaces the first entry of that name or is one more, unless it is dropped.
pub fn insert_attribute(
    nodes: &[u32],
    attributes: &mut [u32],
    characters: &[u8],
    place: Place,
    next: u32,
    name: u32,
    important: u32,
    value: Value,
) -> Result<u32, Refusal>
    requires space { Space attributes.old place next }
    requires above { Above nodes.now place }
    requires size_in_bounds { value.start + value.size ≤ length characters.now }
    ensures { Leaves attributes.old place
        (inserted nodes.now attributes.old characters.now place important value
        (so_far attributes.old place next) name) result attributes.new }
{
    match append_attribute(nodes, attributes, characters, place, name, important, value) {
        Some(e) => insert_entry(attributes, place, next, name, e),
        None => Ok(next),
    }
}

// A declaration of `marker`: the three names, one after another.
pub fn insert_marker(
    nodes: &[u32],
    attributes: &mut [u32],
    characters: &[u8],
    place: Place,
    next: u32,
    important: u32,
    value: Value,
) -> Result<u32, Refusal>
    requires space { Space attributes.old place next }
    requires above { Above nodes.now place }
    requires size_in_bounds { value.start + value.size ≤ length characters.now }
    ensures { Leaves attributes.old place
        (folded (inserted nodes.now attributes.old characters.now place important value)
        (so_far attributes.old place next) (AId.MarkerStart ∷ AId.MarkerMid ∷ AId.MarkerEnd ∷ [])) result
        attributes.new }
{
    let mut n = next;
    for name in [aid::MARKER_START, aid::MARKER_MID, aid::MARKER_END] {
        n = insert_attribute(
            nodes, attributes, characters, place, n, name, important, value,
        )?;
    }
    Ok(n)
}
