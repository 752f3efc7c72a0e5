// The test whose number is 40: do the lent tables hold a tree?
ghost use Rattle.std.specs.Prelude.{◌≡◌, ◌+◌, ◌*◌, ◌<◌, ◌≤◌, [], length};
ghost use Rattle.model.specs.Tables.{entry_at};
ghost use Rattle.model.specs.Questions.{counts_fit, is_placed, is_later, is_linked, is_range, is_filled};
ghost use Rattle.model.specs.Questions.{is_node, is_entry, all_below, is_sound};
ghost use Rattle.tree.specs.Lent.{tree_of, nodes_of, nodes_read, entries_of, entry_of};

use names::{is_attribute, is_element};
use tree::read::entry_at;
use tree::word::{node_link, node_word};
use tree::{Counts, Entry, Kind, word};

// How many fixed values there are.
const FIXED_VALUES: u32 = 18;

// The counts fit the slices, and there is at least one node.
fn counts_fit(nodes: &[u32], attributes: &[u32], text: &[u8], counts: Counts) -> bool
    ensures { result ≡ counts_fit (tree_of nodes.now attributes.now text.now counts) }
{
    1 <= counts.nodes
        && 8 * (counts.nodes as usize) <= nodes.len()
        && 5 * (counts.attributes as usize) <= attributes.len()
        && counts.text as usize <= text.len()
}

// Record 0 alone is the root; every other node is an element or a text, and its parent's index is smaller than its own.
fn is_placed(nodes: &[u32], i: u32) -> bool
    requires { 8 * i + 7 < length nodes.now }
    ensures { result ≡ is_placed (nodes_read nodes.now) i }
{
    let kind = node_word(nodes, i, word::KIND);
    match node_link(nodes, i, word::PARENT) {
        None => i == 0 && kind == u32::from(Kind::Root),
        Some(parent) => {
            parent < i && (kind == u32::from(Kind::Element) || kind == u32::from(Kind::Text))
        }
    }
}

// A sibling or child of node i, as the table has it, an index plus 1 and 0 for none: none, or larger than i within the count.
fn is_later(counts: Counts, i: u32, w: u32) -> bool
    ensures { result ≡ is_later (nodes_of [] counts) i w }
{
    if w == 0 {
        return true;
    }
    if w - 1 <= i {
        return false;
    }
    w <= counts.nodes
}

// Siblings and children have larger indexes; first and last child are both given or both not.
fn is_linked(nodes: &[u32], counts: Counts, i: u32) -> bool
    requires { 8 * i + 7 < length nodes.now }
    ensures { result ≡ is_linked (nodes_of nodes.now counts) i }
{
    let next = node_word(nodes, i, word::NEXT_SIBLING);
    let first = node_word(nodes, i, word::FIRST_CHILD);
    let last = node_word(nodes, i, word::LAST_CHILD);
    if !is_later(counts, i, next) || !is_later(counts, i, first) {
        return false;
    }
    if first == 0 {
        return last == 0;
    }
    last != 0 && is_later(counts, i, last)
}

// The range of node i lies in order inside a table with n taken.
fn is_range(nodes: &[u32], n: u32, i: u32) -> bool
    requires { 8 * i + 7 < length nodes.now }
    ensures { result ≡ is_range (nodes_read nodes.now) n i }
{
    let from = node_word(nodes, i, word::FROM);
    let to = node_word(nodes, i, word::TO);
    from <= to && to <= n
}

// Ranges lie inside their tables, and an element's code is in the list.
fn is_filled(nodes: &[u32], counts: Counts, i: u32) -> bool
    requires { 8 * i + 7 < length nodes.now }
    ensures { result ≡ is_filled (nodes_of nodes.now counts) i }
{
    let kind = node_word(nodes, i, word::KIND);
    if kind == u32::from(Kind::Element) {
        return is_element(node_word(nodes, i, word::CODE)) && is_range(nodes, counts.attributes, i);
    }
    kind != u32::from(Kind::Text) || is_range(nodes, counts.text, i)
}

// The turn of one node.
fn is_node(nodes: &[u32], counts: Counts, i: u32) -> bool
    requires { 8 * i + 7 < length nodes.now }
    ensures { result ≡ is_node (nodes_of nodes.now counts) i }
{
    is_placed(nodes, i) && is_linked(nodes, counts, i) && is_filled(nodes, counts, i)
}

// All nodes, the last first: where too many are counted, most often it is the last that is none.
#[tactic(auto, unfolding(model::specs::Questions::all_below))]
fn are_nodes(nodes: &[u32], counts: Counts) -> bool
    requires { 8 * counts.nodes ≤ length nodes.now }
    ensures { result ≡ all_below (is_node (nodes_of nodes.now counts)) counts.nodes }
{
    for n in (0..counts.nodes).rev() {
        if !is_node(nodes, counts, n) {
            return false;
        }
    }
    true
}

// The turn of one attribute entry: its name is in the list, and its value inside the characters or the fixed list.
fn is_entry(e: Entry, size: usize) -> bool
    ensures { result ≡ is_entry size (entry_of e) }
{
    is_attribute(e.name)
        && if e.command == 0 {
            1 <= e.start && e.start <= FIXED_VALUES && e.size == 0
        } else {
            e.start as usize + e.size as usize <= size
        }
}

// All entries, the last first.
#[tactic(auto, unfolding(model::specs::Questions::all_below))]
fn are_entries(attributes: &[u32], size: usize, count: u32) -> bool
    requires { 5 * count ≤ length attributes.now }
    ensures { result ≡ all_below (λ j. is_entry size (entry_at (entries_of attributes.now) j)) count }
{
    for n in (0..count).rev() {
        if !is_entry(entry_at(attributes, n), size) {
            return false;
        }
    }
    true
}

// Do the tables pass the test?
#[tactic(auto, unfolding(model::specs::Questions::is_sound, model::specs::Tables::entry_at))]
pub fn is_sound(
    nodes: &[u32],
    attributes: &[u32],
    text: &[u8],
    characters: &[u8],
    counts: Counts,
) -> bool
    ensures { result ≡ is_sound characters.now (tree_of nodes.now attributes.now text.now counts) }
{
    counts_fit(nodes, attributes, text, counts)
        && are_nodes(nodes, counts)
        && are_entries(attributes, characters.len(), counts.attributes)
}
