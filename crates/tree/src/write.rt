// Writing the tables.
ghost use Rattle.std.specs.Prelude.{◌≡◌, [], ◌∷◌, ◌+◌, ◌-◌, ◌*◌, ◌<◌, ◌≤◌, length, replicate, IfSome};
ghost use Rattle.std.proofs.lemmas.List.Edits.{sets};
ghost use Rattle.model.specs.Tables.{word, set_word, to_of, next_linked, first_linked, linked, appended, entry_words, set_text, set_none};
ghost use Rattle.tree.specs.Lent.{plus_one, entries_of, texts_of, entry_of};

use crate::word::{node_link, node_word};
use crate::{Entry, Kind, NewNode, word};

// Word k of the record of node i.
pub fn set_word(nodes: &mut [u32], i: u32, k: usize, value: u32)
    requires { 8 * i + k < length nodes.old }
    ensures { nodes.new ≡ set_word nodes.old i k value }
{
    nodes[8 * (i as usize) + k] = value;
}

// The record of the new node i below p, with no links to others but its parent.
#[tactic(auto, using(crate::proofs::Stores::part_sets))]
fn put_record(nodes: &mut [u32], i: u32, p: u32, node: NewNode)
    requires { (8 * i + 7 < length nodes.old) × (p < 4294967295) }
    ensures { nodes.new ≡ sets nodes.old (8 * i) (node.kind ∷ (p + 1) ∷ 0 ∷ 0 ∷ 0 ∷ node.code ∷ node.from ∷ node.to ∷ []) }
{
    let record = [node.kind, p + 1, 0, 0, 0, node.code, node.from, node.to];
    let at = 8 * (i as usize);
    nodes[at..at + 8].copy_from_slice(&record);
}

// The node before the new node i, if there is one, gets it as its next sibling.
#[tactic(auto, unfolding(model::specs::Tables::next_linked))]
fn link_next(nodes: &mut [u32], before: Option<u32>, i: u32)
    requires { IfSome before (λ j. 8 * j + 7 < length nodes.old) × (i < 4294967295) }
    ensures { nodes.new ≡ next_linked nodes.old (plus_one before) i }
{
    if let Some(j) = before {
        set_word(nodes, j, word::NEXT_SIBLING, i + 1);
    }
}

// A parent with no child yet gets the new node i as its first.
#[tactic(auto, unfolding(model::specs::Tables::first_linked))]
fn link_first(nodes: &mut [u32], p: u32, i: u32)
    requires { (8 * p + 7 < length nodes.old) × (i < 4294967295) }
    ensures { nodes.new ≡ first_linked nodes.old p i }
{
    if node_link(nodes, p, word::FIRST_CHILD).is_none() {
        set_word(nodes, p, word::FIRST_CHILD, i + 1);
    }
}

// The three links to the new node i below p.
#[tactic(auto, unfolding(model::specs::Tables::linked))]
fn link(nodes: &mut [u32], p: u32, i: u32)
    requires { (8 * i + 7 < length nodes.old) × (p < i) × (i < 4294967295) × (word nodes.old p 4 ≤ i) }
    ensures { nodes.new ≡ linked nodes.old p i }
{
    let last = node_link(nodes, p, word::LAST_CHILD);
    link_next(nodes, last, i);
    link_first(nodes, p, i);
    set_word(nodes, p, word::LAST_CHILD, i + 1);
}

// `append`: the new node i below p, with the links to it.
#[tactic(auto, unfolding(model::specs::Tables::appended))]
pub fn append(nodes: &mut [u32], node: NewNode, p: u32, i: u32)
    requires { (8 * i + 7 < length nodes.old) × (p < i) × (i < 4294967295) × (word nodes.old p 4 ≤ i) }
    ensures { nodes.new ≡ appended node.kind node.code node.from node.to nodes.old p i }
{
    put_record(nodes, i, p, node);
    link(nodes, p, i);
}

// The root of an empty table.
pub fn put_root(nodes: &mut [u32])
    requires { 7 < length nodes.old }
    ensures { nodes.new ≡ set_word nodes.old 0 0 1 }
{
    set_word(nodes, 0, word::KIND, u32::from(Kind::Root));
}

// Entry j.
#[tactic(auto, using(crate::proofs::Stores::part_sets))]
pub fn put_entry(attributes: &mut [u32], j: u32, e: Entry)
    requires { 5 * j + 4 < length attributes.old }
    ensures { attributes.new ≡ sets attributes.old (5 * j) (entry_words (entry_of e)) }
{
    let record = [e.name, e.important, e.start, e.size, e.command];
    let at = 5 * (j as usize);
    attributes[at..at + 5].copy_from_slice(&record);
}

// Another value for entry j; its name and importance are kept.
#[tactic(auto, using(crate::proofs::Stores::part_sets))]
pub fn put_value(attributes: &mut [u32], j: u32, start: u32, size: u32, command: u32)
    requires { 5 * j + 4 < length attributes.old }
    ensures { attributes.new ≡ sets attributes.old (5 * j + 2) (start ∷ size ∷ command ∷ []) }
{
    let at = 5 * (j as usize) + 2;
    attributes[at..at + 3].copy_from_slice(&[start, size, command]);
}

// The value of entry j becomes none.
#[tactic(auto, unfolding(model::specs::Tables::set_none))]
pub fn set_none(attributes: &mut [u32], j: u32)
    requires { 5 * j + 4 < length attributes.old }
    ensures { attributes.new ≡ (set_none j (entries_of attributes.old)).attributes }
{
    put_value(attributes, j, 1, 0, 0);
}

// Zeros from `from` up to `to`.
#[tactic(auto, using(crate::proofs::Stores::part_sets))]
pub fn zero_bytes(text: &mut [u8], from: usize, to: usize)
    requires { to ≤ length text.old }
    ensures { text.new ≡ sets text.old from (replicate (to - from) 0) }
{
    if from < to {
        text[from..to].fill(0);
    }
}

// Other bounds for the text of node i; the bytes that it gives up become zero.
#[tactic(auto, unfolding(model::specs::Tables::set_text))]
pub fn set_text(nodes: &mut [u32], text: &mut [u8], i: u32, from: u32, to: u32)
    requires { (8 * i + 7 < length nodes.old) × (from ≤ length text.old) × (to_of (texts_of nodes.old text.old) i ≤ length text.old) }
    ensures nodes { nodes.new ≡ (set_text i from to (texts_of nodes.old text.old)).nodes }
    ensures text { text.new ≡ (set_text i from to (texts_of nodes.old text.old)).text }
{
    let first = node_word(nodes, i, word::FROM);
    let end = node_word(nodes, i, word::TO);
    set_word(nodes, i, word::FROM, from);
    set_word(nodes, i, word::TO, to);
    zero_bytes(text, first as usize, from as usize);
    zero_bytes(text, to as usize, end as usize);
}
