// Appending a text node.
ghost use Rattle.std.specs.Prelude.{◌≡◌, [], ◌∷◌, ◌+◌, ◌≤◌, length};
ghost use Rattle.std.proofs.lemmas.List.Edits.{sets};
ghost use Rattle.std.proofs.Math.Seq.{slice};
ghost use Rattle.model.specs.Text.{trim_text};
ghost use Rattle.tree.specs.Lent.{tree_of, out_of};
ghost use Rattle.text.specs.Spaces.{space_in};
ghost use Rattle.text.specs.Append.{Appendable, append_in, source_of};

use crate::trim::trim_text;
use crate::{Source, Trimmed, XmlSpace};
use refusal::Refusal;
use tree::room::{node_room, text_room};
use tree::write::append;
use tree::{Counts, Kind, NewNode};

// The text made from one source, put at the beginning of its place in the text table. The answer is where it ends.
#[tactic(auto, using(crate::proofs::Appending::puts))]
fn put_text(
    text: &mut [u8],
    characters: &[u8],
    first: u32,
    start: u32,
    size: u32,
    space: XmlSpace,
) -> u32
    requires size_bound { (first + size ≤ 4294967295) × (first + size ≤ length text.old) }
    requires size_in_bounds { start + size ≤ length characters.now }
    ensures end { result ≡ first + length (trim_text (space_in space) (slice start (start + size) characters.now)) }
    ensures text { text.new ≡ sets text.old first (trim_text (space_in space) (slice start (start + size) characters.now)) }
{
    let from = first as usize;
    let to = from + size as usize;
    let at = start as usize;
    let end = at + size as usize;
    let begun = Trimmed { size: 0, prev: 48 };
    let done = trim_text(&characters[at..end], &mut text[from..to], space, begun);
    let n = done.size as u32;
    first + n
}

// A text node below p, made from one text of the script, where `space` is handed down to p: text bytes lacking is 24, no record left 22.
#[tactic(auto, using(crate::proofs::Appending::appends), unfolding(model::specs::Tables::text_room))]
pub fn append_text(
    nodes: &mut [u32],
    text: &mut [u8],
    characters: &[u8],
    counts: Counts,
    p: u32,
    source: Source,
    space: XmlSpace,
) -> Result<Counts, Refusal>
    requires appendable { Appendable (tree_of nodes.old [] text.old counts) p }
    requires size_in_bounds { source.start + source.size ≤ length characters.now }
    ensures { out_of nodes.new [] text.new result ≡ append_in (space_in space) characters.now
        (source_of source ∷ []) p (tree_of nodes.old [] text.old counts) }
{
    if text_room(text) - counts.text < source.size {
        return Err(Refusal::TextFull);
    }
    if node_room(nodes) <= counts.nodes {
        return Err(Refusal::NodesFull);
    }
    let end = put_text(
        text,
        characters,
        counts.text,
        source.start,
        source.size,
        space,
    );
    let node = NewNode {
        kind: u32::from(Kind::Text),
        code: 0,
        from: counts.text,
        to: end,
    };
    append(nodes, node, p, counts.nodes);
    Ok(Counts {
        nodes: counts.nodes + 1,
        text: counts.text + source.size,
        ..counts
    })
}
