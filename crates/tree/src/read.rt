// Reading the tables: the attributes of a node, and the nodes above it.
ghost use Rattle.std.specs.Prelude.{◌≡◌, ℕ, ◌+◌, ◌-◌, ◌*◌, ◌<◌, ◌≤◌, length, IfSome};
ghost use Rattle.model.specs.Base.{same_bytes};
ghost use Rattle.model.specs.Tables.{entry_at, value_of, find_entry, attribute_id, attribute_of, holder_of, has_id_bytes, last_with_id};
ghost use Rattle.tree.specs.Lent.{plus_one, read_of, entries_of, entry_of, Valued, Readable, ReadableIn, Climbable, HeldBy};

use crate::word::{entry_word, has_kind, node_link, node_word};
use crate::{Entry, Kind, word};
use names::{aid, is_fixed, is_possible_none, same};

// The first entry of that name from `from` up to `to`.
#[tactic(auto, using(crate::proofs::Entries::find_steps), unfolding(model::specs::Tables::find_entry))]
pub fn find_entry(attributes: &[u32], a: u32, from: u32, to: u32) -> Option<u32>
    requires { 5 * to ≤ length attributes.now }
    ensures found { plus_one result ≡ find_entry (entries_of attributes.now) a from (to - from) }
    ensures within { IfSome result (λ j. j < to) }
{
    for j in from..to {
        if entry_word(attributes, j, word::NAME) == a {
            return Some(j);
        }
    }
    None
}

// Entry j.
#[tactic(auto, unfolding(model::specs::Tables::entry_at))]
pub fn entry_at(attributes: &[u32], j: u32) -> Entry
    requires { 5 * j + 4 < length attributes.now }
    ensures { entry_of result ≡ entry_at (entries_of attributes.now) j }
{
    Entry {
        name: entry_word(attributes, j, word::NAME),
        important: entry_word(attributes, j, word::IMPORTANT),
        start: entry_word(attributes, j, word::START),
        size: entry_word(attributes, j, word::SIZE),
        command: entry_word(attributes, j, word::COMMAND),
    }
}

// `attribute_id`: the first attribute of that name of node i, which only an element has.
#[tactic(auto, unfolding(model::specs::Tables::attribute_id))]
pub fn attribute_id(nodes: &[u32], attributes: &[u32], i: u32, a: u32) -> Option<u32>
    requires { Readable (read_of nodes.now attributes.now) i }
    ensures found { plus_one result ≡ attribute_id (read_of nodes.now attributes.now) i a }
    ensures held { IfSome result (HeldBy (read_of nodes.now attributes.now) i) }
{
    if !has_kind(nodes, i, Kind::Element) {
        return None;
    }
    let from = node_word(nodes, i, word::FROM);
    let to = node_word(nodes, i, word::TO);
    find_entry(attributes, a, from, to)
}

// Does entry j have that value?
#[tactic(auto, using(crate::proofs::Entries::part_of), unfolding(model::specs::Tables::entry_at, model::specs::Tables::value_of))]
pub fn has_value(attributes: &[u32], characters: &[u8], j: u32, value: &[u8]) -> bool
    requires { (5 * j + 4 < length attributes.now) × Valued (length characters.now) (entry_at (entries_of attributes.now) j) }
    ensures { result ≡ same_bytes (value_of characters.now (entry_at (entries_of attributes.now) j)) value.now }
{
    let start = entry_word(attributes, j, word::START);
    if entry_word(attributes, j, word::COMMAND) == 0 {
        return is_fixed(start, value);
    }
    let from = start as usize;
    let to = from + entry_word(attributes, j, word::SIZE) as usize;
    same(&characters[from..to], value)
}

// `attribute`: for ten names the value none counts as absent.
#[tactic(auto, unfolding(model::specs::Tables::attribute_of, model::specs::Tables::entry_at))]
pub fn attribute_of(
    nodes: &[u32],
    attributes: &[u32],
    characters: &[u8],
    i: u32,
    a: u32,
) -> Option<u32>
    requires { ReadableIn (length characters.now) (read_of nodes.now attributes.now) i }
    ensures found { plus_one result ≡ attribute_of characters.now (read_of nodes.now attributes.now) i a }
    ensures held { IfSome result (HeldBy (read_of nodes.now attributes.now) i) }
{
    let j = attribute_id(nodes, attributes, i, a)?;
    if is_possible_none(a) && has_value(attributes, characters, j, b"none") {
        return None;
    }
    Some(j)
}

// The nearest node with the attribute, from node i up.
#[tactic(auto, using(crate::proofs::Climbs::climbs))]
pub fn holder_of(nodes: &[u32], attributes: &[u32], a: u32, i: u32) -> Option<u32>
    requires { Climbable (read_of nodes.now attributes.now) i }
    ensures found { plus_one result ≡ holder_of (read_of nodes.now attributes.now) a i }
    ensures within { IfSome result (λ k. k ≤ i) }
{
    let mut above = Some(i);
    while let Some(k) = above {
        let is_holder = attribute_id(nodes, attributes, k, a).is_some();
        if is_holder {
            return Some(k);
        }
        above = node_link(nodes, k, word::PARENT);
    }
    None
}

// Is node i an element with that id?
#[tactic(auto, unfolding(model::specs::Tables::entry_at, model::specs::Tables::has_id_bytes))]
pub fn has_id(nodes: &[u32], attributes: &[u32], characters: &[u8], i: u32, id: &[u8]) -> bool
    requires { ReadableIn (length characters.now) (read_of nodes.now attributes.now) i }
    ensures { result ≡ has_id_bytes characters.now (read_of nodes.now attributes.now) id.now i }
{
    attribute_id(nodes, attributes, i, aid::ID).is_some_and(|j| has_value(
        attributes, characters, j, id,
    ))
}

// The last of the first `count` nodes that is an element with that id.
#[tactic(auto, unfolding(model::specs::Tables::last_with_id))]
pub fn last_with_id(
    nodes: &[u32],
    attributes: &[u32],
    characters: &[u8],
    id: &[u8],
    count: u32,
) -> Option<u32>
    requires { (k : ℕ) → k < count → ReadableIn (length characters.now) (read_of nodes.now attributes.now) k }
    ensures found { plus_one result ≡ last_with_id characters.now (read_of nodes.now attributes.now) id.now count }
    ensures within { IfSome result (λ k. k < count) }
{
    for n in (0..count).rev() {
        if has_id(nodes, attributes, characters, n, id) {
            return Some(n);
        }
    }
    None
}
