// The node at the cursor, before what stands below it.
ghost use Rattle.std.specs.Prelude.{◌≡◌};
ghost use Rattle.script.specs.Step.{Fit};
ghost use Rattle.walk.specs.Nodes.{node_at, Standing};
ghost use Rattle.memo.specs.Table.{Memo};
ghost use Rattle.tree.specs.Lent.{tree_of};
ghost use Rattle.label.specs.Whole.{Underway, Beginning};
ghost use Rattle.parse.specs.Met.{MetOr, MetFit, CopyFit, HandedFit};

use crate::begin::begin_node;
use crate::name::is_copied;
use crate::{Begun, State};
use links::link::use_target;
use refusal::Refusal;
use script::cursor::Cursor;
use script::drawing::Drawing;
use walk::node::{Item, Opened, next_item, past_element};

// What was met, and so what comes next: the node is done, and the cursor stands behind it; its children, from the cursor on; what it
// copies, at which the cursor stands; or there was no node, and the cursor stands behind the close of the element around it.
#[derive(Clone, Copy)]
pub enum Met {
    Passed,
    Children,
    Copy,
    End,
}

// What the use e copies, whose children begin at `children`.
fn begin_copy(
    state: &mut State,
    drawing: &Drawing,
    slots: &[u16],
    e: Opened,
    children: Cursor,
) -> Met
    requires standing { Standing drawing.now e }
    requires fit { Fit drawing.now children }
    requires memo { Memo drawing.now slots.now }
    ensures { CopyFit drawing.now e children state.old state.new result }
{
    let Some(l) = use_target(drawing, slots, e, state.origin) else {
        state.cursor = past_element(drawing, children);
        return Met::Passed;
    };
    let number = e.own.number + 1;
    state.cursor = l.own;
    state.children = children;
    state.copier = number;
    Met::Copy
}

// The element e.
fn begin_at(
    state: &mut State,
    left: u32,
    parent: u32,
    drawing: &Drawing,
    nodes: &mut [u32],
    attributes: &mut [u32],
    text: &mut [u8],
    slots: &[u16],
    e: Opened,
) -> Result<Met, Refusal>
    requires beginning { Beginning drawing.now (tree_of nodes.old attributes.old text.old state.old.counts) parent e }
    requires standing { Standing drawing.now e }
    requires memo { Memo drawing.now slots.now }
    ensures { MetOr drawing.now left state.old.origin parent
        (node_at drawing.now e) e.inside.at
        (tree_of nodes.old attributes.old text.old state.old.counts)
        state.new (tree_of nodes.new attributes.new text.new state.new.counts) result }
{
    let ignored = is_copied(state.origin);
    let begun = begin_node(
        drawing,
        slots,
        nodes,
        attributes,
        text,
        state.counts,
        left,
        ignored,
        parent,
        e,
    )?;
    match begun {
        Begun::Passed(k, c) => {
            state.counts = k;
            state.cursor = c;
            Ok(Met::Passed)
        }
        Begun::Children(k, c) => {
            state.counts = k;
            state.cursor = c;
            Ok(Met::Children)
        }
        Begun::Use(k, c) => {
            state.counts = k;
            Ok(begin_copy(state, drawing, slots, e, c))
        }
    }
}

// A text, or a node that is no element, is handed over: only its depth counts.
fn hand_over(state: &mut State, left: u32, n: Cursor) -> Result<Met, Refusal>
    ensures { HandedFit left n state.old state.new result }
{
    if left == 0 {
        return Err(Refusal::ElementsLimitReached);
    }
    state.cursor = n;
    Ok(Met::Passed)
}

// The node at the cursor below `parent`; `left` is 1025 minus its depth.
pub fn meet(
    state: &mut State,
    left: u32,
    parent: u32,
    drawing: &Drawing,
    nodes: &mut [u32],
    attributes: &mut [u32],
    text: &mut [u8],
    slots: &[u16],
) -> Result<Met, Refusal>
    requires underway { Underway drawing.now (tree_of nodes.old attributes.old text.old state.old.counts) parent state.old.cursor }
    requires memo { Memo drawing.now slots.now }
    ensures { MetFit drawing.now left state.old.origin parent state.old.cursor
        (tree_of nodes.old attributes.old text.old state.old.counts)
        state.new (tree_of nodes.new attributes.new text.new state.new.counts) result }
{
    match next_item(drawing, state.cursor) {
        Item::Begin(e) => begin_at(
            state, left, parent, drawing, nodes, attributes, text, slots, e,
        ),
        Item::Text(_, _, n) => hand_over(state, left, n),
        Item::Other(n) => hand_over(state, left, n),
        Item::Close(n) => {
            state.cursor = n;
            Ok(Met::End)
        }
        Item::End => Ok(Met::End),
    }
}
