// The nodes below a node follow it in the table.
ghost use Rattle.std.specs.Prelude.{◌≡◌, ℕ, ◌*◌, ◌≤◌, ◌<◌, IfSome, unwrap_or, length};
ghost use Rattle.model.specs.Tables.{attribute_id};
ghost use Rattle.tree.specs.Lent.{read_of, Readable};
ghost use Rattle.targets.specs.Targets.{seen_of};
ghost use Rattle.cuts.specs.Seen.{has_links, Range, Ranges};

use crate::quiet::behind_quiet;
use tree::read::attribute_id;
use tree::word::node_word;
use tree::{Counts, word};

// Behind node i and the nodes below it: the first node behind i whose parent comes before i.
pub fn behind_below(nodes: &[u32], count: u32, i: u32) -> u32
    requires { (i < count) × (8 * count ≤ length nodes.now) }
    ensures { Range nodes.now count i result }
{
    for j in i + 1..count {
        if node_word(nodes, j, word::PARENT) <= i {
            return j;
        }
    }
    count
}

// Behind node w and the nodes below it, where ranges are remembered: what stands below a remembered node is passed over.
pub fn behind_target(quiet: &[u32; 4096], nodes: &[u32], count: u32, w: u32) -> u32
    requires w_lt_count { (w < count) × (8 * count ≤ length nodes.now) }
    requires ranges { Ranges nodes.now count quiet.now }
    ensures { Range nodes.now count w result }
{
    let mut j = w + 1;
    while j < count {
        if node_word(nodes, j, word::PARENT) <= w {
            return j;
        }
        j = behind_quiet(quiet, j).unwrap_or(j + 1);
    }
    j
}

// The first of the nodes from i up to end that has that attribute.
pub fn first_with(nodes: &[u32], attributes: &[u32], name: u32, i: u32, end: u32) -> Option<u32>
    requires i_le_end { i ≤ end }
    requires by_index { (m : ℕ) → m < end → Readable (read_of nodes.now attributes.now) m }
    ensures within { IfSome result (λ m. (i ≤ m) × (m < end)) }
    ensures none { (m : ℕ) → i ≤ m → m < unwrap_or result end → attribute_id (read_of nodes.now attributes.now) m name ≡ 0 }
    ensures some { IfSome result (λ m. attribute_id (read_of nodes.now attributes.now) m name ≡ 0 → ⊥) }
{
    for m in i..end {
        if attribute_id(nodes, attributes, m, name).is_some() {
            return Some(m);
        }
    }
    None
}

// Has node i that attribute, or a node below it?
pub fn has_links(nodes: &[u32], attributes: &[u32], counts: Counts, name: u32, i: u32) -> bool
    requires by_index { (m : ℕ) → m < counts.nodes → Readable (read_of nodes.now attributes.now) m }
    requires i_lt_nodes { (i < counts.nodes) × (8 * counts.nodes ≤ length nodes.now) }
    ensures { result ≡ has_links (seen_of nodes.now attributes.now counts) name i }
{
    let end = behind_below(nodes, counts.nodes, i);
    first_with(nodes, attributes, name, i, end).is_some()
}
