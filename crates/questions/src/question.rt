// The questions. They change nothing, and take tables of any length and content.
ghost use Rattle.std.specs.Prelude.{◌≡◌, ◌-◌};
ghost use Rattle.model.specs.Tables.{first_child_of};
ghost use Rattle.model.specs.Questions.{question_fault, attribute_question, find_attribute_question, element_by_id_question};
ghost use Rattle.model.specs.Questions.{text_of_node, text_at, text_question};
ghost use Rattle.refusal.specs.Number.{answer_of};
ghost use Rattle.tree.specs.Lent.{tree_of, nodes_read};
ghost use Rattle.questions.specs.Answers as A;
ghost use Rattle.questions.specs.Answers.{parted, part_or_empty, bytes_of, TextReadable};

use crate::Part;
use crate::find::find_attribute_impl;
use crate::sound::is_sound;
use names::is_attribute;
use refusal::Refusal;
use tree::read::{attribute_of, last_with_id};
use tree::word::{has_kind, node_link, node_word};
use tree::{Counts, Kind, word};

// What stands against a question about an attribute of a node.
#[tactic(auto, unfolding(model::specs::Questions::question_fault, model::specs::Check::first_of))]
fn question_fault(
    nodes: &[u32],
    attributes: &[u32],
    text: &[u8],
    characters: &[u8],
    counts: Counts,
    node: u32,
    name: u32,
) -> Result<(), Refusal>
    ensures { answer_of result ≡ question_fault characters.now (tree_of nodes.now attributes.now text.now counts) node name }
{
    if !is_sound(nodes, attributes, text, characters, counts) {
        return Err(Refusal::UnsoundTables);
    }
    if counts.nodes <= node {
        return Err(Refusal::NoSuchNode);
    }
    if !is_attribute(name) {
        return Err(Refusal::NoSuchAttribute);
    }
    Ok(())
}

// The attribute question: the entry that `attribute` reads.
#[tactic(auto, unfolding(model::specs::Questions::attribute_question))]
pub fn attribute(
    nodes: &[u32],
    attributes: &[u32],
    text: &[u8],
    characters: &[u8],
    counts: Counts,
    node: u32,
    name: u32,
) -> Result<Option<u32>, Refusal>
    ensures { A.answer_of result ≡ attribute_question characters.now (tree_of nodes.now attributes.now text.now counts) node name }
{
    question_fault(nodes, attributes, text, characters, counts, node, name)?;
    Ok(attribute_of(nodes, attributes, characters, node, name))
}

// The find attribute question: the node that `find_attribute_impl` finds, and then its `attribute`.
#[tactic(auto, unfolding(model::specs::Questions::find_attribute_question))]
pub fn find_attribute(
    nodes: &[u32],
    attributes: &[u32],
    text: &[u8],
    characters: &[u8],
    counts: Counts,
    node: u32,
    name: u32,
) -> Result<Option<u32>, Refusal>
    ensures { A.answer_of result ≡ find_attribute_question characters.now (tree_of nodes.now attributes.now text.now counts) node name }
{
    question_fault(nodes, attributes, text, characters, counts, node, name)?;
    let Some(holder) = find_attribute_impl(nodes, attributes, node, name) else {
        return Ok(None);
    };
    Ok(attribute_of(nodes, attributes, characters, holder, name))
}

// The id question: the last element with that id.
#[tactic(auto, unfolding(model::specs::Check::first_of, model::specs::Questions::element_by_id_question))]
pub fn element_by_id(
    nodes: &[u32],
    attributes: &[u32],
    text: &[u8],
    characters: &[u8],
    counts: Counts,
    id: &[u8],
) -> Result<Option<u32>, Refusal>
    ensures { A.answer_of result ≡ element_by_id_question characters.now (tree_of nodes.now attributes.now text.now counts) id.now }
{
    if !is_sound(nodes, attributes, text, characters, counts) {
        return Err(Refusal::UnsoundTables);
    }
    Ok(last_with_id(nodes, attributes, characters, id, counts.nodes))
}

// The text of node i if it is a text node.
fn text_of_node(nodes: &[u32], i: u32) -> Option<Part>
    requires { TextReadable (nodes_read nodes.now) i }
    ensures { part_or_empty result ≡ parted (text_of_node (nodes_read nodes.now) i) }
{
    if !has_kind(nodes, i, Kind::Text) {
        return None;
    }
    let from = node_word(nodes, i, word::FROM);
    let to = node_word(nodes, i, word::TO);
    Some(Part {
        start: from,
        size: to - from,
    })
}

// `text`: a text node's own text, or that of an element's first child.
fn text_at(nodes: &[u32], i: u32) -> Option<Part>
    requires { TextReadable (nodes_read nodes.now) i ×
        ((first_child_of (nodes_read nodes.now) i ≡ 0 → ⊥) →
        TextReadable (nodes_read nodes.now) (first_child_of (nodes_read nodes.now) i - 1)) }
    ensures { part_or_empty result ≡ parted (text_at (nodes_read nodes.now) i) }
{
    if !has_kind(nodes, i, Kind::Element) {
        return text_of_node(nodes, i);
    }
    let child = node_link(nodes, i, word::FIRST_CHILD)?;
    text_of_node(nodes, child)
}

// Where the text of a node lies in the text table: empty where the tables are broken or the node is past the end.
#[tactic(auto, unfolding(model::specs::Questions::text_question))]
pub fn text_part(
    nodes: &[u32],
    attributes: &[u32],
    text: &[u8],
    characters: &[u8],
    counts: Counts,
    node: u32,
) -> Part
    ensures { result ≡ parted (text_question characters.now (tree_of nodes.now attributes.now text.now counts) node) }
{
    let empty = Part { start: 0, size: 0 };
    if !is_sound(nodes, attributes, text, characters, counts) || counts.nodes <= node {
        return empty;
    }
    text_at(nodes, node).unwrap_or(empty)
}

// The text question: that part of the caller's text table.
#[tactic(auto, using(tree::proofs::Entries::part_of))]
pub fn text<'a>(
    nodes: &[u32],
    attributes: &[u32],
    text: &'a [u8],
    characters: &[u8],
    counts: Counts,
    node: u32,
) -> &'a [u8]
    ensures { result.now ≡ bytes_of (text_question characters.now (tree_of nodes.now attributes.now text.now counts) node) text.now }
{
    let part = text_part(nodes, attributes, text, characters, counts, node);
    let from = part.start as usize;
    let to = from + part.size as usize;
    &text[from..to]
}
