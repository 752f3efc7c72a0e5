// A node without what stands below it.
ghost use Rattle.memo.specs.Table.{Memo};
ghost use Rattle.tree.specs.Lent.{tree_of};
ghost use Rattle.label.specs.Whole.{Beginning};
ghost use Rattle.parse.specs.Cycle.{IsText, IsOther, BegunFit};

use crate::Begun;
use crate::name::{is_parsed, tag_of};
use element::parse::parse_svg_element;
use label::whole::parse_svg_text_element;
use names::eid;
use pieces::content::code_of;
use refusal::Refusal;
use script::drawing::Drawing;
use tree::Counts;
use walk::node::{Opened, past_element};

// The text element e, which is done with all that stands in it.
fn begin_text(
    drawing: &Drawing,
    slots: &[u16],
    nodes: &mut [u32],
    attributes: &mut [u32],
    text: &mut [u8],
    counts: Counts,
    left: u32,
    ignored: bool,
    parent: u32,
    e: Opened,
) -> Result<Begun, Refusal>
    requires beginning { Beginning drawing.now (tree_of nodes.old attributes.old text.old counts) parent e }
    requires text { IsText left e.name e.space }
    requires memo { Memo drawing.now slots.now }
    ensures { BegunFit drawing.now left ignored parent e
        (tree_of nodes.old attributes.old text.old counts)
        nodes.new attributes.new text.new result }
{
    let parsed = parse_svg_text_element(
        drawing, slots, nodes, attributes, text, counts, parent, ignored, e,
    )?;
    Ok(Begun::Passed(parsed.counts, parsed.behind))
}

// Any other element e.
fn begin_element(
    drawing: &Drawing,
    nodes: &mut [u32],
    attributes: &mut [u32],
    text: &[u8],
    counts: Counts,
    left: u32,
    ignored: bool,
    parent: u32,
    e: Opened,
) -> Result<Begun, Refusal>
    requires beginning { Beginning drawing.now (tree_of nodes.old attributes.old text.now counts) parent e }
    requires other { IsOther left e.name e.space }
    ensures { BegunFit drawing.now left ignored parent e
        (tree_of nodes.old attributes.old text.now counts)
        nodes.new attributes.new text.now result }
{
    let code = code_of(e.name);
    let parsed = parse_svg_element(
        drawing,
        nodes,
        attributes,
        counts,
        parent,
        tag_of(code),
        ignored,
        e,
    )?;
    if code == eid::USE {
        return Ok(Begun::Use(parsed.counts, parsed.behind));
    }
    Ok(Begun::Children(parsed.counts, parsed.behind))
}

// The element e below `parent`; `left` is 1025 minus its depth. Depth is tested first. An element that becomes no node is passed over with
// all that stands in it.
pub fn begin_node(
    drawing: &Drawing,
    slots: &[u16],
    nodes: &mut [u32],
    attributes: &mut [u32],
    text: &mut [u8],
    counts: Counts,
    left: u32,
    ignored: bool,
    parent: u32,
    e: Opened,
) -> Result<Begun, Refusal>
    requires beginning { Beginning drawing.now (tree_of nodes.old attributes.old text.old counts) parent e }
    requires memo { Memo drawing.now slots.now }
    ensures { BegunFit drawing.now left ignored parent e
        (tree_of nodes.old attributes.old text.old counts)
        nodes.new attributes.new text.new result }
{
    let inside = e.inside;
    if left == 0 {
        return Err(Refusal::ElementsLimitReached);
    }
    if !is_parsed(e.name, e.space) {
        let past = past_element(drawing, inside);
        return Ok(Begun::Passed(counts, past));
    }
    if code_of(e.name) == eid::TEXT {
        return begin_text(
            drawing, slots, nodes, attributes, text, counts, left, ignored, parent, e,
        );
    }
    begin_element(
        drawing, nodes, attributes, text, counts, left, ignored, parent, e,
    )
}
