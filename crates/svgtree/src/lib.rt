// The operations for a host, by the C calling convention: a slice is a pointer and a length. include/svgtree.h declares them.
#![tactic(auto)]

ghost use Rattle.std.specs.Prelude.{◌≡◌, length};
ghost use Rattle.model.specs.Check.{check};
ghost use Rattle.model.specs.Build.{build, exchange};
ghost use Rattle.model.specs.Questions.{attribute_question, find_attribute_question, element_by_id_question, text_question};
ghost use Rattle.tree.specs.Lent.{tree_of};
ghost use Rattle.questions.specs.Answers.{answered, parted};
ghost use Rattle.build.specs.Results.{result_of};

use build::Built;
use questions::{Answer, Part, question};
use refusal::answer_number;
use script::drawing::Drawing;
use tree::Counts;

// One number for a script and its characters, 0 if they are accepted.
#[unsafe(no_mangle)]
pub extern "C" fn svgtree_check(script: &[u8], characters: &[u8]) -> u32
    ensures { result ≡ check script.now characters.now }
{
    answer_number(script::check::check(&Drawing { script, characters }))
}

// A drawing in the three tables. Every refusal clears them and gives counts of 0.
#[unsafe(no_mangle)]
pub extern "C" fn svgtree_build(
    script: &[u8],
    characters: &[u8],
    nodes: &mut [u32],
    attributes: &mut [u32],
    text: &mut [u8],
) -> Built
    ensures { result_of characters.now nodes.new attributes.new text.new result
        ≡ build script.now characters.now (length nodes.old) (length attributes.old)
        (length text.old) }
{
    build::whole::build(&Drawing { script, characters }, nodes, attributes, text).into()
}

// The text with that number becomes these bytes, and the tables are built anew. 1 to 9 and 30 to 33 touch nothing; 20 to 24 leave the
// characters and clear the tables.
#[unsafe(no_mangle)]
pub extern "C" fn svgtree_exchange(
    script: &[u8],
    characters: &mut [u8],
    number: u32,
    new: &[u8],
    nodes: &mut [u32],
    attributes: &mut [u32],
    text: &mut [u8],
) -> Built
    ensures { result_of characters.new nodes.new attributes.new text.new result
        ≡ exchange script.now characters.old number new.now nodes.old
        attributes.old text.old }
{
    exchange::whole::exchange(script, characters, number, new, nodes, attributes, text).into()
}

// The attribute question: the entry that `attribute` reads.
#[unsafe(no_mangle)]
pub extern "C" fn svgtree_attribute(
    nodes: &[u32],
    attributes: &[u32],
    text: &[u8],
    characters: &[u8],
    counts: Counts,
    node: u32,
    name: u32,
) -> Answer
    ensures { result ≡ answered (attribute_question characters.now (tree_of nodes.now attributes.now text.now counts) node name) }
{
    question::attribute(nodes, attributes, text, characters, counts, node, name).into()
}

// The find attribute question: `find_attribute_impl`, and then `attribute` of the node found.
#[unsafe(no_mangle)]
pub extern "C" fn svgtree_find_attribute(
    nodes: &[u32],
    attributes: &[u32],
    text: &[u8],
    characters: &[u8],
    counts: Counts,
    node: u32,
    name: u32,
) -> Answer
    ensures { result ≡ answered (find_attribute_question characters.now (tree_of nodes.now attributes.now text.now counts) node name) }
{
    question::find_attribute(nodes, attributes, text, characters, counts, node, name).into()
}

// The id question: the last element with that id.
#[unsafe(no_mangle)]
pub extern "C" fn svgtree_element_by_id(
    nodes: &[u32],
    attributes: &[u32],
    text: &[u8],
    characters: &[u8],
    counts: Counts,
    id: &[u8],
) -> Answer
    ensures { result ≡ answered (element_by_id_question characters.now (tree_of nodes.now attributes.now text.now counts) id.now) }
{
    question::element_by_id(nodes, attributes, text, characters, counts, id).into()
}

// The text question: where the text lies in the text table.
#[unsafe(no_mangle)]
pub extern "C" fn svgtree_text(
    nodes: &[u32],
    attributes: &[u32],
    text: &[u8],
    characters: &[u8],
    counts: Counts,
    node: u32,
) -> Part
    ensures { result ≡ parted (text_question characters.now (tree_of nodes.now attributes.now text.now counts) node) }
{
    question::text_part(nodes, attributes, text, characters, counts, node)
}
