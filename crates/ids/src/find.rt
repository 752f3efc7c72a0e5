// The last element with an id, by the chain of its bucket.
ghost use Rattle.std.specs.Prelude.{◌≡◌, ℕ, ◌<◌, length, IfSome};
ghost use Rattle.model.specs.Tables.{last_with_id};
ghost use Rattle.tree.specs.Lent.{plus_one, read_of, ReadableIn};
ghost use Rattle.ids.specs.Chains.{bucket_of, Chained, Indexed};

use crate::bucket::bucket;
use crate::heads::Heads;
use names::aid;
use tree::read::{attribute_id, has_value, last_with_id};
use tree::word;
use tree::word::entry_word;

// The last of the first `count` nodes with that id, from the last node of its bucket down.
#[tactic(auto, using(crate::proofs::Sets::find_chained_set), unfolding(model::specs::Tables::entry_at))]
fn find_chained(
    nodes: &[u32],
    attributes: &[u32],
    characters: &[u8],
    heads: &Heads,
    id: &[u8],
    count: u32,
) -> Option<u32>
    requires by_index { (k : ℕ) → k < count → ReadableIn (length characters.now) (read_of nodes.now attributes.now) k }
    requires chained { Chained characters.now (read_of nodes.now attributes.now) heads.now.last count }
    ensures found { plus_one result ≡ last_with_id characters.now (read_of nodes.now attributes.now) id.now count }
    ensures within { IfSome result (λ k. k < count) }
{
    let mut last = heads.last[bucket(id)].checked_sub(1);
    while let Some(n) = last {
        let j = attribute_id(nodes, attributes, n, aid::ID).unwrap();
        if has_value(attributes, characters, j, id) {
            return last;
        }
        last = (entry_word(attributes, j, word::IMPORTANT) / 2).checked_sub(1);
    }
    None
}

// The same where there may be no chains: then every node is looked at.
pub fn find_id(
    nodes: &[u32],
    attributes: &[u32],
    characters: &[u8],
    heads: &Heads,
    id: &[u8],
    count: u32,
) -> Option<u32>
    requires by_index { (k : ℕ) → k < count → ReadableIn (length characters.now) (read_of nodes.now attributes.now) k }
    requires indexed { Indexed characters.now (read_of nodes.now attributes.now) heads.now count }
    ensures found { plus_one result ≡ last_with_id characters.now (read_of nodes.now attributes.now) id.now count }
    ensures within { IfSome result (λ k. k < count) }
{
    if !heads.is_whole {
        return last_with_id(nodes, attributes, characters, id, count);
    }
    find_chained(nodes, attributes, characters, heads, id, count)
}
