// What a pass aims at with an element: the mark of the links that lead to it.
ghost use Rattle.std.specs.Prelude.{◌≡◌, ◌<◌, IfSome, unwrap_or, leb, length};
ghost use Rattle.model.specs.Theorems.Kept.{Kept};
ghost use Rattle.tree.specs.Lent.{read_of};
ghost use Rattle.ids.specs.Chains.{Indexed};
ghost use Rattle.targets.specs.Targets.{seen_of};
ghost use Rattle.cuts.specs.Seen.{key_of};

use ids::heads::Heads;
use leads::last::last_of;
use names::aid;
use tree::Counts;
use tree::read::attribute_id;

// Does the pass with that number look for patterns?
fn is_pattern(pass: u32) -> bool
    ensures { result ≡ leb pass 2 }
{
    pass <= 2
}

// The mark of the links that lead to element i in the pass with that number; none where none can.
#[tactic(auto, using(crate::proofs::Sets::key_of_set))]
pub fn key_of(
    nodes: &[u32],
    attributes: &[u32],
    characters: &[u8],
    heads: &Heads,
    counts: Counts,
    pass: u32,
    i: u32,
) -> Option<usize>
    requires kept { Kept (length characters.now) (seen_of nodes.now attributes.now counts) }
    requires indexed { Indexed characters.now (read_of nodes.now attributes.now) heads.now counts.nodes }
    requires i_lt_nodes { i < counts.nodes }
    ensures same { unwrap_or result 0 ≡ key_of characters.now pass (seen_of nodes.now attributes.now counts) i }
    ensures some { IfSome result (λ k. k ≡ 0 → ⊥) }
{
    if !is_pattern(pass) {
        attribute_id(nodes, attributes, i, aid::ID)?;
        return Some(i as usize + 2);
    }
    match last_of(nodes, attributes, characters, heads, counts.nodes, i) {
        Some(w) => Some(w as usize + 2),
        None => Some(1),
    }
}
