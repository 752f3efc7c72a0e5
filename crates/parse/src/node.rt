// `parse_xml_node`, `parse_xml_node_children` and `parse_svg_use_element` call one another; the levels left fall at each descent. A node's
// own element is built before, by `meet`, so that no frame of the recursion has what that needs.
ghost use Rattle.std.specs.Prelude.{◌≡◌, ◌-◌, OnOk};
ghost use Rattle.script.specs.Step.{Fit};
ghost use Rattle.walk.specs.Nodes.{leave};
ghost use Rattle.walk.specs.Values.{events_at};
ghost use Rattle.memo.specs.Table.{Memo};
ghost use Rattle.tree.specs.Lent.{tree_of};
ghost use Rattle.label.specs.Whole.{Underway};
ghost use Rattle.parse.specs.Met.{first_of, level_built, outcome_of, rest_built, rest_nodes, rest_at, Reached, RestFit, Copying, PastFit};

use crate::State;
use crate::met::{Met, meet};
use crate::name::two_less;
use crate::unbuilt::pass_unbuilt;
use refusal::Refusal;
use script::cursor::Cursor;
use script::drawing::Drawing;
use walk::node::past_element;

// What is left of the node with that index, by what `meet` has met of it; `left` is 1025 minus its depth.
#[cycle(parse_svg_use_element_parse_xml_node_parse_xml_node_children)]
fn parse_xml_node(
    state: &mut State,
    met: Met,
    left: u32,
    index: u32,
    drawing: &Drawing,
    nodes: &mut [u32],
    attributes: &mut [u32],
    text: &mut [u8],
    slots: &[u16],
) -> Result<(), Refusal>
    requires rest_fit { RestFit drawing.now left index state.old (tree_of nodes.old attributes.old text.old state.old.counts) met }
    requires memo { Memo drawing.now slots.now }
    ensures outcome { outcome_of (tree_of nodes.new attributes.new text.new state.new.counts) result
        ≡ rest_built drawing.now left index state.old
        (tree_of nodes.old attributes.old text.old state.old.counts) met }
    ensures behind { OnOk result (Reached drawing.now state.old.origin
        (rest_nodes drawing.now state.old met) (rest_at state.old met)
        state.old.counts.nodes state.new
        (tree_of nodes.new attributes.new text.new state.new.counts)) }
{
    match met {
        Met::Children => parse_xml_node_children(
            state,
            left - 1,
            index,
            drawing,
            nodes,
            attributes,
            text,
            slots,
        ),
        Met::Copy => parse_svg_use_element(
            state, left, index, drawing, nodes, attributes, text, slots,
        ),
        Met::Passed | Met::End => Ok(()),
    }
}

// Behind the element whose children begin at c.
fn pass_over(state: &mut State, drawing: &Drawing, c: Cursor)
    requires { Fit drawing.now c }
    ensures { PastFit drawing.now c state.old state.new }
{
    state.cursor = past_element(drawing, c);
}

// What a use copies, at which the cursor stands, below the use's own node `parent`, two levels deeper than the use, which has `left`. The
// use's own children are passed over.
#[cycle(parse_svg_use_element_parse_xml_node_parse_xml_node_children)]
fn parse_svg_use_element(
    state: &mut State,
    left: u32,
    parent: u32,
    drawing: &Drawing,
    nodes: &mut [u32],
    attributes: &mut [u32],
    text: &mut [u8],
    slots: &[u16],
) -> Result<(), Refusal>
    requires copying { Copying drawing.now left parent state.old (tree_of nodes.old attributes.old text.old state.old.counts) }
    requires memo { Memo drawing.now slots.now }
    ensures outcome { outcome_of (tree_of nodes.new attributes.new text.new state.new.counts) result
        ≡ first_of drawing.now (left - 2) state.old.copier parent
        (events_at drawing.now state.old.cursor)
        (tree_of nodes.old attributes.old text.old state.old.counts) }
    ensures behind { OnOk result (Reached drawing.now state.old.origin
        (leave 0 (events_at drawing.now state.old.children))
        state.old.children.at state.old.counts.nodes state.new
        (tree_of nodes.new attributes.new text.new state.new.counts)) }
{
    let children = state.children;
    let origin = state.origin;
    let less = two_less(left);
    let index = state.counts.nodes;
    state.origin = state.copier;
    let met = meet(state, less, parent, drawing, nodes, attributes, text, slots)?;
    parse_xml_node(
        state, met, less, index, drawing, nodes, attributes, text, slots,
    )?;
    pass_over(state, drawing, children);
    state.origin = origin;
    Ok(())
}

// All nodes from the cursor to the close of the element that it stands in, below `parent`. The cursor is left behind the close. Where one
// is done at once, those behind it of which nothing is built are passed over together.
#[cycle(parse_svg_use_element_parse_xml_node_parse_xml_node_children)]
pub fn parse_xml_node_children(
    state: &mut State,
    left: u32,
    parent: u32,
    drawing: &Drawing,
    nodes: &mut [u32],
    attributes: &mut [u32],
    text: &mut [u8],
    slots: &[u16],
) -> Result<(), Refusal>
    requires underway { Underway drawing.now (tree_of nodes.old attributes.old text.old state.old.counts) parent state.old.cursor }
    requires memo { Memo drawing.now slots.now }
    ensures outcome { outcome_of (tree_of nodes.new attributes.new text.new state.new.counts) result
        ≡ level_built drawing.now left state.old.origin parent state.old.cursor
        (tree_of nodes.old attributes.old text.old state.old.counts) }
    ensures behind { OnOk result (Reached drawing.now state.old.origin
        (leave 0 (events_at drawing.now state.old.cursor))
        state.old.cursor.at state.old.counts.nodes state.new
        (tree_of nodes.new attributes.new text.new state.new.counts)) }
{
    loop {
        let index = state.counts.nodes;
        let met = meet(state, left, parent, drawing, nodes, attributes, text, slots)?;
        if let Met::End = met {
            return Ok(());
        }
        parse_xml_node(
            state, met, left, index, drawing, nodes, attributes, text, slots,
        )?;
        if let Met::Passed = met {
            pass_unbuilt(state, drawing, left);
        }
    }
}
