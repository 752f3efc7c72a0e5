// Storing the entries of one element, behind those that are taken.
// What a step stores ends at the number that it answers: the next entry goes there.
ghost use Rattle.std.specs.Prelude.{◌≡◌, [], ◌∷◌, ◌++◌};
ghost use Rattle.std.proofs.Math.Option.{some};
ghost use Rattle.model.specs.Element.{insert_entry};
ghost use Rattle.tree.specs.Lent.{entry_of};
ghost use Rattle.entries.specs.Space.{Space, Leaves, so_far};

use crate::Place;
use refusal::Refusal;
use tree::read::find_entry;
use tree::word::entry_word;
use tree::write::put_entry;
use tree::{Entry, word};

// One entry more.
pub fn add_entry(attributes: &mut [u32], place: Place, next: u32, e: Entry) -> Result<u32, Refusal>
    requires { Space attributes.old place next }
    ensures { Leaves attributes.old place (so_far attributes.old place next ++ (entry_of e ∷ [])) result attributes.new }
{
    if place.room <= next {
        return Err(Refusal::AttributesFull);
    }
    put_entry(attributes, next, e);
    Ok(next + 1)
}

// `insert_attribute` with an entry for that name: it replaces the first one of that name, unless that is important; else it is one more.
pub fn insert_entry(
    attributes: &mut [u32],
    place: Place,
    next: u32,
    name: u32,
    e: Entry,
) -> Result<u32, Refusal>
    requires { Space attributes.old place next }
    ensures { Leaves attributes.old place (insert_entry name (so_far attributes.old place next) (some (entry_of e))) result attributes.new }
{
    let Some(j) = find_entry(attributes, name, place.first, next) else {
        return add_entry(attributes, place, next, e);
    };
    let is_plain = entry_word(attributes, j, word::IMPORTANT) == 0;
    if is_plain {
        put_entry(attributes, j, e);
    }
    Ok(next)
}
