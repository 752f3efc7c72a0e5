// The last element with the id of an element: the one to which links with that id lead.
ghost use Rattle.std.specs.Prelude.{◌≡◌, ℕ, ◌+◌, ◌<◌, IfSome, length};
ghost use Rattle.model.specs.Base.{same_bytes};
ghost use Rattle.model.specs.Tables.{entry_at, value_of, has_id_bytes, last_with_id};
ghost use Rattle.model.specs.Repair.{element_id};
ghost use Rattle.tree.specs.Lent.{plus_one, read_of, entries_of};
ghost use Rattle.ids.specs.Chains.{Indexed};
ghost use Rattle.leads.specs.Links.{Known, KnownIn};

use ids::find::find_id;
use ids::heads::Heads;
use names::{aid, is_fixed};
use tree::read::{attribute_id, has_value};
use tree::word;
use tree::word::entry_word;
use walk::value::part_at;

// Have two entries the same value?
#[tactic(auto, using(crate::proofs::Sets::same_value_set))]
fn same_value(attributes: &[u32], characters: &[u8], j: u32, k: u32) -> bool
    requires known { Known (length characters.now) (entries_of attributes.now) j }
    requires known_2 { Known (length characters.now) (entries_of attributes.now) k }
    ensures { result ≡ same_bytes (value_of characters.now (entry_at (entries_of attributes.now) j))
        (value_of characters.now (entry_at (entries_of attributes.now) k)) }
{
    let first = entry_word(attributes, k, word::START);
    if entry_word(attributes, k, word::COMMAND) != 0 {
        let len = entry_word(attributes, k, word::SIZE);
        return has_value(
            attributes,
            characters,
            j,
            part_at(characters, first as usize, len),
        );
    }
    let start = entry_word(attributes, j, word::START);
    if entry_word(attributes, j, word::COMMAND) != 0 {
        let size = entry_word(attributes, j, word::SIZE);
        return is_fixed(first, part_at(characters, start as usize, size));
    }
    start == first
}

// Is node m an element whose id is the value of entry j?
#[tactic(auto, using(crate::proofs::Sets::has_same_id_set), unfolding(model::specs::Tables::entry_at))]
fn has_same_id(nodes: &[u32], attributes: &[u32], characters: &[u8], m: u32, j: u32) -> bool
    requires known_in { KnownIn (length characters.now) (read_of nodes.now attributes.now) m }
    requires known { Known (length characters.now) (entries_of attributes.now) j }
    ensures { result ≡ has_id_bytes characters.now (read_of nodes.now attributes.now)
        (value_of characters.now (entry_at (entries_of attributes.now) j)) m }
{
    match attribute_id(nodes, attributes, m, aid::ID) {
        Some(k) => same_value(attributes, characters, k, j),
        None => false,
    }
}

// The last of the first `count` nodes whose id is the value of entry j. Each is compared.
#[tactic(auto, using(crate::proofs::Sets::last_same_set))]
fn last_same(
    nodes: &[u32],
    attributes: &[u32],
    characters: &[u8],
    count: u32,
    j: u32,
) -> Option<u32>
    requires by_index { (k : ℕ) → k < count → KnownIn (length characters.now) (read_of nodes.now attributes.now) k }
    requires known { Known (length characters.now) (entries_of attributes.now) j }
    ensures same { plus_one result ≡ last_with_id characters.now (read_of nodes.now attributes.now)
        (value_of characters.now (entry_at (entries_of attributes.now) j)) count }
    ensures low { IfSome result (λ k. k < count) }
{
    for n in (0..count).rev() {
        if has_same_id(nodes, attributes, characters, n, j) {
            return Some(n);
        }
    }
    None
}

// The last of the first `count` nodes with the id of element i. An element without an id asks for the empty one. By the chains of ids; an
// id that is a fixed value stands in none.
#[tactic(auto, using(crate::proofs::Sets::last_of_set), unfolding(model::specs::Tables::entry_at))]
pub fn last_of(
    nodes: &[u32],
    attributes: &[u32],
    characters: &[u8],
    heads: &Heads,
    count: u32,
    i: u32,
) -> Option<u32>
    requires by_index { (k : ℕ) → k < count → KnownIn (length characters.now) (read_of nodes.now attributes.now) k }
    requires indexed { Indexed characters.now (read_of nodes.now attributes.now) heads.now count }
    requires i_lt_count { i < count }
    ensures same { plus_one result ≡ last_with_id characters.now (read_of nodes.now attributes.now)
        (element_id characters.now (read_of nodes.now attributes.now) i) count }
    ensures low { IfSome result (λ k. k < count) }
{
    let Some(j) = attribute_id(nodes, attributes, i, aid::ID) else {
        let none = part_at(characters, 0, 0);
        return find_id(nodes, attributes, characters, heads, none, count);
    };
    if entry_word(attributes, j, word::COMMAND) == 0 {
        return last_same(nodes, attributes, characters, count, j);
    }
    let start = entry_word(attributes, j, word::START);
    let size = entry_word(attributes, j, word::SIZE);
    let id = part_at(characters, start as usize, size);
    find_id(nodes, attributes, characters, heads, id, count)
}
