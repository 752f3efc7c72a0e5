// The inside of a text element (`parse_svg_text_element_impl`), one node after another.
ghost use Rattle.std.specs.Prelude.{◌≡◌, [], ◌∷◌, ℕ, ◌+◌, ◌≤◌, length};
ghost use Rattle.model.specs.Check.{most_bytes};
ghost use Rattle.model.specs.Drawing.{quoted, source_at};
ghost use Rattle.model.specs.Tables.{parent_of};
ghost use Rattle.model.specs.Text.{append_text, space_of};
ghost use Rattle.script.specs.Step.{mark_of, document};
ghost use Rattle.walk.specs.Nodes.{element_of, Standing};
ghost use Rattle.memo.specs.Table.{Memo};
ghost use Rattle.tree.specs.Lent.{tree_of, read_of, out_of, ReadableIn, Climbable};
ghost use Rattle.text.specs.Spaces.{space_in};
ghost use Rattle.pieces.specs.Levels.{Recalled};
ghost use Rattle.label.specs.Walk.{Holding, quote_of, Lies, Within, Opening, TurnFit, InsideFit};

use crate::State;
use element::Parsed;
use element::parse::parse_svg_element;
use links::link::quoted;
use names::{aid, eid};
use pieces::Levels;
use pieces::content::{code_of, is_text_content, text_tag_of};
use pieces::quote::append_quoted;
use refusal::Refusal;
use script::cursor::Cursor;
use script::drawing::Drawing;
use std::ops::ControlFlow;
use text::append::append_text;
use text::space::{get_xmlspace, space_of};
use text::{Source, XmlSpace};
use tree::read::attribute_id;
use tree::word::node_word;
use tree::{Counts, word};
use walk::node::{Item, Opened, next_item, past_element};

// The space that the parent q of node p hands down, where p hands down `space` and nothing is remembered: it is looked for only where p
// says one itself.
fn space_above(
    nodes: &[u32],
    attributes: &[u32],
    characters: &[u8],
    p: u32,
    q: u32,
    space: XmlSpace,
) -> XmlSpace
    requires climbable { Climbable (read_of nodes.now attributes.now) p }
    requires by_index { (k : ℕ) → k ≤ p → ReadableIn (length characters.now) (read_of nodes.now attributes.now) k }
    requires p_value { parent_of (read_of nodes.now attributes.now) p ≡ q + 1 }
    requires space_value { space_in space ≡ space_of characters.now (read_of nodes.now attributes.now) p }
    ensures { space_in result ≡ space_of characters.now (read_of nodes.now attributes.now) q }
{
    let is_unset = attribute_id(nodes, attributes, p, aid::SPACE).is_none();
    if is_unset {
        return space;
    }
    space_of(nodes, attributes, characters, q)
}

// A text node below p, made from the text of the script that stands at `own`.
fn add_text(
    nodes: &mut [u32],
    attributes: &[u32],
    text: &mut [u8],
    characters: &[u8],
    counts: Counts,
    p: u32,
    own: Cursor,
    size: u32,
    space: XmlSpace,
) -> Result<Counts, Refusal>
    requires holding { Holding (length characters.now) (tree_of nodes.old attributes.now text.old counts) p }
    requires space_value { space_in space ≡ space_of characters.now (read_of nodes.old attributes.now) p }
    requires size_in_bounds { own.chars + size ≤ length characters.now }
    requires characters_len_bound { (length characters.now ≤ most_bytes) × (own.texts ≤ most_bytes) }
    ensures { out_of nodes.new attributes.now text.new result
        ≡ append_text characters.now (source_at characters.now (mark_of own) size ∷ []) p
        (tree_of nodes.old attributes.now text.old counts) }
{
    let texts = own.texts as u32;
    let source = Source {
        number: texts + 1,
        start: own.chars as u32,
        size,
    };
    append_text(nodes, text, characters, counts, p, source, space)
}

// The text node of the tref x below p, made from all texts that it quotes; there is none for nothing.
fn add_quoted(
    drawing: &Drawing,
    slots: &[u16],
    nodes: &mut [u32],
    attributes: &[u32],
    text: &mut [u8],
    counts: Counts,
    p: u32,
    x: Opened,
    space: XmlSpace,
) -> Result<Counts, Refusal>
    requires holding { Holding (length drawing.now.characters.now) (tree_of nodes.old attributes.now text.old counts) p }
    requires space_value { space_in space ≡ space_of drawing.now.characters.now (read_of nodes.old attributes.now) p }
    requires standing { Standing drawing.now x }
    requires lies { Lies drawing.now.characters.now (document drawing.now) }
    requires memo { Memo drawing.now slots.now }
    ensures { out_of nodes.new attributes.now text.new result
        ≡ quote_of drawing.now.characters.now (quoted (document drawing.now)
        (element_of drawing.now x)) p
        (tree_of nodes.old attributes.now text.old counts) }
{
    match quoted(drawing, slots, x) {
        Some(l) => append_quoted(drawing, nodes, text, counts, p, l.inside, space),
        None => Ok(counts),
    }
}

// An element inside the text element e: its node, and its inside comes next; a tref quotes, and its own inside is passed over. So is an
// element that is not read here.
fn begin(
    drawing: &Drawing,
    slots: &[u16],
    nodes: &mut [u32],
    attributes: &mut [u32],
    text: &mut [u8],
    e: u32,
    s: State,
    levels: &mut Levels,
    x: Opened,
) -> Result<ControlFlow<Parsed, State>, Refusal>
    requires within { Within drawing.now nodes.old attributes.old text.old e s }
    requires opening { Opening drawing.now s x }
    requires recalled { Recalled drawing.now.characters.now (tree_of nodes.old attributes.old text.old s.counts) s.p levels.old }
    requires memo { Memo drawing.now slots.now }
    ensures { TurnFit drawing.now e nodes.old attributes.old text.old s nodes.new attributes.new text.new levels.new result }
{
    let code = code_of(x.name);
    let counts = s.counts;
    let handed = s.space;
    if !is_text_content(x.name, x.space, s.p == e) {
        let behind = past_element(drawing, x.inside);
        return Ok(ControlFlow::Continue(State { c: behind, ..s }));
    }
    let opened = parse_svg_element(
        drawing,
        nodes,
        attributes,
        counts,
        s.p,
        text_tag_of(code),
        false,
        x,
    )?;
    let node = counts.nodes;
    let space = get_xmlspace(nodes, attributes, drawing.characters, node, handed);
    let is_read = code != eid::TREF;
    if is_read {
        levels.push(handed);
        let next = State {
            c: opened.behind,
            p: node,
            counts: opened.counts,
            space,
        };
        return Ok(ControlFlow::Continue(next));
    }
    let all = add_quoted(
        drawing,
        slots,
        nodes,
        attributes,
        text,
        opened.counts,
        node,
        x,
        space,
    )?;
    let past = past_element(drawing, opened.behind);
    let next = State {
        c: past,
        counts: all,
        ..s
    };
    Ok(ControlFlow::Continue(next))
}

// What stands at the place of the state.
fn advance(
    drawing: &Drawing,
    slots: &[u16],
    nodes: &mut [u32],
    attributes: &mut [u32],
    text: &mut [u8],
    e: u32,
    s: State,
    levels: &mut Levels,
) -> Result<ControlFlow<Parsed, State>, Refusal>
    requires within { Within drawing.now nodes.old attributes.old text.old e s }
    requires recalled { Recalled drawing.now.characters.now (tree_of nodes.old attributes.old text.old s.counts) s.p levels.old }
    requires memo { Memo drawing.now slots.now }
    ensures { TurnFit drawing.now e nodes.old attributes.old text.old s nodes.new attributes.new text.new levels.new result }
{
    match next_item(drawing, s.c) {
        Item::Begin(x) => begin(drawing, slots, nodes, attributes, text, e, s, levels, x),
        Item::Text(own, len, n) => {
            let counts = add_text(
                nodes,
                attributes,
                text,
                drawing.characters,
                s.counts,
                s.p,
                own,
                len,
                s.space,
            )?;
            Ok(ControlFlow::Continue(State { c: n, counts, ..s }))
        }
        Item::Other(n) => Ok(ControlFlow::Continue(State { c: n, ..s })),
        Item::Close(n) => {
            if s.p == e {
                return Ok(ControlFlow::Break(Parsed {
                    counts: s.counts,
                    behind: n,
                }));
            }
            let up = node_word(nodes, s.p, word::PARENT) - 1;
            let above = State { c: n, p: up, ..s };
            match levels.pop() {
                Some(space) => Ok(ControlFlow::Continue(State { space, ..above })),
                None => {
                    let space = space_above(
                        nodes,
                        attributes,
                        drawing.characters,
                        s.p,
                        up,
                        s.space,
                    );
                    *levels = Levels::nothing();
                    Ok(ControlFlow::Continue(State { space, ..above }))
                }
            }
        }
        Item::End => Ok(ControlFlow::Break(Parsed {
            counts: s.counts,
            behind: s.c,
        })),
    }
}

// All nodes inside the text element e, from the cursor `from` inside it on. The answer has the cursor behind it.
pub fn inside(
    drawing: &Drawing,
    slots: &[u16],
    nodes: &mut [u32],
    attributes: &mut [u32],
    text: &mut [u8],
    e: u32,
    first: State,
) -> Result<Parsed, Refusal>
    requires within { Within drawing.now nodes.old attributes.old text.old e first }
    requires memo { Memo drawing.now slots.now }
    ensures { InsideFit drawing.now e nodes.old attributes.old text.old first nodes.new attributes.new text.new result }
{
    let mut levels = Levels::nothing();
    let mut s = first;
    loop {
        let turn = advance(drawing, slots, nodes, attributes, text, e, s, &mut levels)?;
        match turn {
            ControlFlow::Continue(next) => s = next,
            ControlFlow::Break(parsed) => return Ok(parsed),
        }
    }
}
