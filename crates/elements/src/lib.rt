// The elements and text elements of a drawing, each below the one that it stands in: what tests/elements replays and bench/ measures.
// Uses, depth and repairs are left out; nothing else uses it.
#![tactic(auto)]

ghost use Rattle.std.specs.Prelude.{◌≡◌, ◌+◌, ◌*◌, ◌≤◌, ◌<◌, length};
ghost use Rattle.model.specs.Check.{check};
ghost use Rattle.model.specs.Tables.{word};
ghost use Rattle.memo.specs.Table.{Memo};
ghost use Rattle.refusal.specs.Number.{answer_of};
ghost use Rattle.elements.specs.Turns.{Going, Opening, TurnFit};

use build::Built;
use build::tables::clear;
use element::parse::parse_svg_element;
use label::whole::parse_svg_text_element;
use memo::fill::fill;
use names::eid;
use parse::name::{is_parsed, tag_of};
use pieces::content::code_of;
use refusal::{Refusal, answer_number};
use script::check::check;
use script::cursor::Cursor;
use script::drawing::Drawing;
use tree::word::node_link;
use tree::write::put_root;
use tree::{Counts, word};
use walk::node::{Item, Opened, next_item, past_element};

// A place in the drawing, the node that is open there, and how much of the tables is taken.
#[derive(Clone, Copy)]
pub struct State {
    pub c: Cursor,
    pub parent: u32,
    pub counts: Counts,
}

// The parent of a node; the root's is the root.
fn above(nodes: &[u32], parent: u32) -> u32
    requires parent_in_bounds { 8 * parent + 7 < length nodes.now }
    requires parent_bound { word nodes.now parent 1 ≤ parent }
    ensures { result ≤ parent }
{
    node_link(nodes, parent, word::PARENT).unwrap_or(0)
}

// A text element whole; what stands behind it comes next.
fn begin_text(
    drawing: &Drawing,
    slots: &[u16],
    nodes: &mut [u32],
    attributes: &mut [u32],
    text: &mut [u8],
    ignored: bool,
    s: State,
    e: Opened,
) -> Result<Option<State>, Refusal>
    requires going { Going drawing.now nodes.old attributes.old text.old s }
    requires opening { Opening drawing.now s e }
    requires memo { Memo drawing.now slots.now }
    ensures { TurnFit drawing.now nodes.new attributes.new text.new s result }
{
    let parsed = parse_svg_text_element(
        drawing, slots, nodes, attributes, text, s.counts, s.parent, ignored, e,
    )?;
    Ok(Some(State {
        c: parsed.behind,
        parent: s.parent,
        counts: parsed.counts,
    }))
}

// An element: its node, and its inside comes next; one that becomes no node is passed over.
fn begin(
    drawing: &Drawing,
    slots: &[u16],
    nodes: &mut [u32],
    attributes: &mut [u32],
    text: &mut [u8],
    ignored: bool,
    s: State,
    e: Opened,
) -> Result<Option<State>, Refusal>
    requires going { Going drawing.now nodes.old attributes.old text.old s }
    requires opening { Opening drawing.now s e }
    requires memo { Memo drawing.now slots.now }
    ensures { TurnFit drawing.now nodes.new attributes.new text.new s result }
{
    if !is_parsed(e.name, e.space) {
        let behind = past_element(drawing, e.inside);
        return Ok(Some(State { c: behind, ..s }));
    }
    let code = code_of(e.name);
    if code == eid::TEXT {
        return begin_text(drawing, slots, nodes, attributes, text, ignored, s, e);
    }
    let parsed = parse_svg_element(
        drawing,
        nodes,
        attributes,
        s.counts,
        s.parent,
        tag_of(code),
        ignored,
        e,
    )?;
    Ok(Some(State {
        c: parsed.behind,
        parent: s.counts.nodes,
        counts: parsed.counts,
    }))
}

// What stands at the place of the state.
fn advance(
    drawing: &Drawing,
    slots: &[u16],
    nodes: &mut [u32],
    attributes: &mut [u32],
    text: &mut [u8],
    ignored: bool,
    s: State,
) -> Result<Option<State>, Refusal>
    requires going { Going drawing.now nodes.old attributes.old text.old s }
    requires memo { Memo drawing.now slots.now }
    ensures { TurnFit drawing.now nodes.new attributes.new text.new s result }
{
    match next_item(drawing, s.c) {
        Item::Begin(e) => begin(drawing, slots, nodes, attributes, text, ignored, s, e),
        Item::Text(_, _, n) => Ok(Some(State { c: n, ..s })),
        Item::Other(n) => Ok(Some(State { c: n, ..s })),
        Item::Close(n) => {
            let parent = above(nodes, s.parent);
            Ok(Some(State { c: n, parent, ..s }))
        }
        Item::End => Ok(None),
    }
}

// The elements from a state on, by the table of ids.
fn run_by(
    drawing: &Drawing,
    slots: &[u16],
    nodes: &mut [u32],
    attributes: &mut [u32],
    text: &mut [u8],
    ignored: bool,
    first: State,
) -> Result<Counts, Refusal>
    requires going { Going drawing.now nodes.old attributes.old text.old first }
    requires memo { Memo drawing.now slots.now }
{
    let mut s = first;
    while let Some(n) = advance(drawing, slots, nodes, attributes, text, ignored, s)? {
        s = n;
    }
    Ok(s.counts)
}

// The elements from a state on.
fn run(
    drawing: &Drawing,
    nodes: &mut [u32],
    attributes: &mut [u32],
    text: &mut [u8],
    ignored: bool,
    first: State,
) -> Result<Counts, Refusal>
    requires { Going drawing.now nodes.old attributes.old text.old first }
{
    let mut slots: [u16; 32768] = [0; 32768];
    fill(drawing, &mut slots);
    run_by(drawing, &slots, nodes, attributes, text, ignored, first)
}

// All of them, from cleared tables on.
fn build_elements(
    drawing: &Drawing,
    nodes: &mut [u32],
    attributes: &mut [u32],
    text: &mut [u8],
    ignored: bool,
) -> Result<Counts, Refusal> {
    check(drawing)?;
    clear(nodes, attributes, text);
    if nodes.len() < 8 {
        return Err(Refusal::NodesFull);
    }
    put_root(nodes);
    let first = State {
        c: Cursor::start(),
        parent: 0,
        counts: Counts {
            nodes: 1,
            attributes: 0,
            text: 0,
        },
    };
    run(drawing, nodes, attributes, text, ignored, first)
}

// All elements and text elements of a drawing; their ids are ignored or not.
#[unsafe(no_mangle)]
pub extern "C" fn elements_build(
    script: &[u8],
    characters: &[u8],
    nodes: &mut [u32],
    attributes: &mut [u32],
    text: &mut [u8],
    ignored: bool,
) -> Built {
    build_elements(
        &Drawing { script, characters },
        nodes,
        attributes,
        text,
        ignored,
    )
    .into()
}

// Check alone, for what it takes of the time.
#[unsafe(no_mangle)]
pub extern "C" fn elements_check(script: &[u8], characters: &[u8]) -> u32
    ensures { result ≡ check script.now characters.now }
{
    answer_number(check(&Drawing { script, characters }))
}
