// The edges of a text in the lent tables: looking at them, and giving up a space there.
ghost use Rattle.std.specs.Prelude.{◌≡◌, ◌+◌, ◌≤◌};
ghost use Rattle.model.specs.Utf8.{is_blank};
ghost use Rattle.model.specs.Tables.{text_of};
ghost use Rattle.model.specs.Text.{begins_with_space, ends_with_space, cut_text};
ghost use Rattle.tree.specs.Lent.{texts_of};
ghost use Rattle.edges.specs.Pairs.{Ordered, Ranged, Filled, size_of};

use crate::blank::is_blank;
use tree::word;
use tree::word::node_word;
use tree::write::set_text;

// How many bytes the text of node i has.
pub fn size_of(nodes: &[u32], i: u32) -> u32
    requires { Ordered nodes.now i }
    ensures { result ≡ size_of nodes.now i }
{
    node_word(nodes, i, word::TO) - node_word(nodes, i, word::FROM)
}

// The text of node i.
#[tactic(auto, unfolding(model::specs::Tables::text_of))]
fn text_of<'a>(nodes: &[u32], text: &'a [u8], i: u32) -> &'a [u8]
    requires { Ranged (texts_of nodes.now text.now) i }
    ensures { result.now ≡ text_of (texts_of nodes.now text.now) i }
{
    let from = node_word(nodes, i, word::FROM) as usize;
    let to = node_word(nodes, i, word::TO) as usize;
    &text[from..to]
}

// Does the text of node i begin with a space?
pub fn begins_with_space(nodes: &[u32], text: &[u8], i: u32) -> bool
    requires { Ranged (texts_of nodes.now text.now) i }
    ensures { result ≡ begins_with_space (text_of (texts_of nodes.now text.now) i) }
{
    text_of(nodes, text, i).first() == Some(&b' ')
}

// Does it end with one?
pub fn ends_with_space(nodes: &[u32], text: &[u8], i: u32) -> bool
    requires { Ranged (texts_of nodes.now text.now) i }
    ensures { result ≡ ends_with_space (text_of (texts_of nodes.now text.now) i) }
{
    text_of(nodes, text, i).last() == Some(&b' ')
}

// Is it of White_Space alone?
pub fn is_blank_text(nodes: &[u32], text: &[u8], i: u32) -> bool
    requires { Ranged (texts_of nodes.now text.now) i }
    ensures { result ≡ is_blank (text_of (texts_of nodes.now text.now) i) }
{
    is_blank(text_of(nodes, text, i))
}

// The text gives up so many bytes at its beginning and so many at its end.
#[tactic(auto, using(crate::proofs::Looking::cuts))]
pub(crate) fn cut_text(nodes: &mut [u32], text: &mut [u8], i: u32, first: u32, last: u32)
    requires ranged { Ranged (texts_of nodes.old text.old) i }
    requires some { first + last ≤ size_of nodes.old i }
    ensures { texts_of nodes.new text.new ≡ cut_text i first last (texts_of nodes.old text.old) }
{
    let from = node_word(nodes, i, word::FROM);
    let to = node_word(nodes, i, word::TO);
    set_text(nodes, text, i, from + first, to - last);
}

// `remove_first_space`: the first byte is given up.
pub fn remove_first_space(nodes: &mut [u32], text: &mut [u8], i: u32)
    requires { Filled (texts_of nodes.old text.old) i }
    ensures { texts_of nodes.new text.new ≡ cut_text i 1 0 (texts_of nodes.old text.old) }
{
    cut_text(nodes, text, i, 1, 0);
}

// `remove_last_space`: the last byte is given up.
pub fn remove_last_space(nodes: &mut [u32], text: &mut [u8], i: u32)
    requires { Filled (texts_of nodes.old text.old) i }
    ensures { texts_of nodes.new text.new ≡ cut_text i 0 1 (texts_of nodes.old text.old) }
{
    cut_text(nodes, text, i, 0, 1);
}
