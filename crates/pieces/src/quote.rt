// The texts that a tref quotes (`resolve_tref_text`): all texts inside an element, at any depth, as one text node.
ghost use Rattle.std.specs.Prelude.{◌≡◌, [], ◌+◌, ◌≤◌, length};
ghost use Rattle.std.proofs.lemmas.List.Edits.{sets};
ghost use Rattle.std.proofs.Math.Seq.{slice};
ghost use Rattle.model.specs.Text.{trim_text, trim_text_after, total_size, joined};
ghost use Rattle.script.specs.Step.{Fit};
ghost use Rattle.tree.specs.Lent.{tree_of, out_of};
ghost use Rattle.text.specs.Spaces.{space_in, trimmed};
ghost use Rattle.text.specs.Append.{Appendable};
ghost use Rattle.pieces.specs.Quotes.{texts_from, Quotable, quote_in};

use refusal::Refusal;
use script::cursor::Cursor;
use script::drawing::Drawing;
use text::trim::trim_text;
use text::{Trimmed, XmlSpace};
use tree::room::{node_room, text_room};
use tree::write::append;
use tree::{Counts, Kind, NewNode};
use walk::node::next_text;

// How many bytes the texts inside an element have together, from its inside on.
fn quoted_size(drawing: &Drawing, from: Cursor) -> usize
    requires { Fit drawing.now from }
    ensures { result ≡ total_size (texts_from drawing.now from) }
{
    let mut c = from;
    let mut level: usize = 0;
    let mut sum: usize = 0;
    while let Some(t) = next_text(drawing, c, level) {
        sum += t.len as usize;
        c = t.behind;
        level = t.open_elements;
    }
    sum
}

// One text more, behind what stands in the node's place.
fn put_more(
    characters: &[u8],
    place: &mut [u8],
    start: usize,
    size: u32,
    space: XmlSpace,
    begun: Trimmed,
) -> Trimmed
    requires size_in_bounds { start + size ≤ length characters.now }
    requires size_in_bounds_2 { begun.size + size ≤ length place.old }
    ensures answer { result ≡ trimmed (space_in space) begun (slice start (start + size) characters.now) }
    ensures place { place.new ≡ sets place.old begun.size
        (trim_text_after (space_in space) begun.prev (slice start (start + size) characters.now)) }
{
    let end = start + size as usize;
    trim_text(&characters[start..end], place, space, begun)
}

// The texts inside an element one after another, trimmed as one, put at the beginning of the node's place. The answer is how many bytes
// they are then.
fn put_quoted(drawing: &Drawing, place: &mut [u8], from: Cursor, space: XmlSpace) -> usize
    requires quotable { Quotable drawing.now from }
    requires from_in_bounds { total_size (texts_from drawing.now from) ≤ length place.old }
    ensures size { result ≡ length (trim_text (space_in space) (joined drawing.now.characters.now (texts_from drawing.now from))) }
    ensures place { place.new ≡ sets place.old 0 (trim_text (space_in space)
        (joined drawing.now.characters.now (texts_from drawing.now from))) }
{
    let mut c = from;
    let mut level: usize = 0;
    let mut done = Trimmed { size: 0, prev: 48 };
    while let Some(t) = next_text(drawing, c, level) {
        let start = t.own.chars;
        done = put_more(drawing.characters, place, start, t.len, space, done);
        c = t.behind;
        level = t.open_elements;
    }
    done.size
}

// The same at the place of a new text node in the text table. The answer is where they end.
fn put_place(
    drawing: &Drawing,
    text: &mut [u8],
    first: u32,
    size: u32,
    from: Cursor,
    space: XmlSpace,
) -> u32
    requires quotable { Quotable drawing.now from }
    requires size_value { size ≡ total_size (texts_from drawing.now from) }
    requires size_bound { (first + size ≤ 4294967295) × (first + size ≤ length text.old) }
    ensures end { result ≡ first + length (trim_text (space_in space) (joined drawing.now.characters.now (texts_from drawing.now from))) }
    ensures text { text.new ≡ sets text.old first (trim_text (space_in space)
        (joined drawing.now.characters.now (texts_from drawing.now from))) }
{
    let at = first as usize;
    let to = at + size as usize;
    let bytes = put_quoted(drawing, &mut text[at..to], from, space);
    let n = bytes as u32;
    first + n
}

// A text node below p made from all texts inside an element, where `space` is handed down to p: text bytes lacking is 24, no record left
// 22. There is none for nothing.
pub fn append_quoted(
    drawing: &Drawing,
    nodes: &mut [u32],
    text: &mut [u8],
    counts: Counts,
    p: u32,
    from: Cursor,
    space: XmlSpace,
) -> Result<Counts, Refusal>
    requires quotable { Quotable drawing.now from }
    requires appendable { Appendable (tree_of nodes.old [] text.old counts) p }
    ensures { out_of nodes.new [] text.new result ≡ quote_in (space_in space) drawing.now.characters.now
        (texts_from drawing.now from) p
        (tree_of nodes.old [] text.old counts) }
{
    let total = quoted_size(drawing, from);
    let is_empty = total == 0;
    if is_empty {
        return Ok(counts);
    }
    let left = text_room(text) - counts.text;
    if (left as usize) < total {
        return Err(Refusal::TextFull);
    }
    if node_room(nodes) <= counts.nodes {
        return Err(Refusal::NodesFull);
    }
    let size = total as u32;
    let end = put_place(drawing, text, counts.text, size, from, space);
    let node = NewNode {
        kind: u32::from(Kind::Text),
        code: 0,
        from: counts.text,
        to: end,
    };
    append(nodes, node, p, counts.nodes);
    Ok(Counts {
        nodes: counts.nodes + 1,
        text: counts.text + size,
        ..counts
    })
}
