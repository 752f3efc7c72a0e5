// The chains are made: node after node, each id's entry gets the head of its bucket, and becomes the head.
ghost use Rattle.std.specs.Prelude.{◌≡◌, ℕ, ◌+◌, ◌*◌, ◌<◌, length, get_or, replicate};
ghost use Rattle.model.specs.Theorems.Kept.{Tidy};
ghost use Rattle.tree.specs.Lent.{tree_of, read_of, ReadableIn};
ghost use Rattle.ids.specs.Chains.{next_set, Turned, Like, no_heads, Indexed};

use crate::bucket::bucket;
use crate::heads::Heads;
use names::aid;
use tree::read::attribute_id;
use tree::word::entry_word;
use tree::{Counts, word};
use walk::value::part_at;

// Entry j has, behind its importance, the node whose index plus 1 is n.
pub fn set_next(attributes: &mut [u32], j: u32, n: u32)
    requires j_in_bounds { 5 * j + 4 < length attributes.old }
    requires n_bound { n < 2147483648 }
    ensures { attributes.new ≡ next_set attributes.old j n }
{
    let at = 5 * (j as usize) + word::IMPORTANT;
    attributes[at] = attributes[at] % 2 + 2 * n;
}

// Node i, if it has an id. Not where the id is a fixed value, which has no place in the characters, nor past 2^31 nodes.
fn chain_one(
    nodes: &[u32],
    attributes: &mut [u32],
    characters: &[u8],
    heads: &mut [u32; 2048],
    i: u32,
) -> bool
    requires readable_in { ReadableIn (length characters.now) (read_of nodes.now attributes.old) i }
    requires i_bound { i < 4294967295 }
    ensures { Turned characters.now nodes.now attributes.old heads.old i attributes.new heads.new result }
{
    let Some(j) = attribute_id(nodes, attributes, i, aid::ID) else {
        return true;
    };
    if entry_word(attributes, j, word::COMMAND) == 0 {
        return false;
    }
    let start = entry_word(attributes, j, word::START);
    let size = entry_word(attributes, j, word::SIZE);
    let b = bucket(part_at(characters, start as usize, size));
    let next = heads[b];
    if next >= 2147483648 {
        return false;
    }
    set_next(attributes, j, next);
    heads[b] = i + 1;
    true
}

// All nodes. Where one cannot be chained, the heads stay as not whole.
pub fn chain(
    nodes: &[u32],
    attributes: &mut [u32],
    characters: &[u8],
    heads: &mut Heads,
    counts: Counts,
)
    requires tidy { Tidy (length characters.now) (tree_of nodes.now attributes.old (replicate counts.text 0) counts) }
    requires heads_none { heads.old ≡ no_heads }
    ensures like { Like counts.attributes attributes.old attributes.new }
    ensures indexed { Indexed characters.now (read_of nodes.now attributes.new) heads.new counts.nodes }
{
    for i in 0..counts.nodes {
        if !chain_one(nodes, attributes, characters, &mut heads.last, i) {
            return;
        }
    }
    heads.is_whole = true;
}
