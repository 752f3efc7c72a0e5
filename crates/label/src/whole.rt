// A text element whole: its own node, its inside, and the spaces of its texts.
ghost use Rattle.std.specs.Prelude.{◌≡◌};
ghost use Rattle.model.specs.Parse.{label, plain};
ghost use Rattle.script.specs.Step.{document};
ghost use Rattle.walk.specs.Nodes.{element_of};
ghost use Rattle.walk.specs.Values.{events_at};
ghost use Rattle.memo.specs.Table.{Memo};
ghost use Rattle.tree.specs.Lent.{tree_of};
ghost use Rattle.element.specs.Runs.{parsed_of};
ghost use Rattle.label.specs.Whole.{Beginning, ClosedFit};

use crate::State;
use crate::within::inside;
use element::Parsed;
use element::parse::parse_svg_element;
use names::eid;
use refusal::Refusal;
use script::drawing::Drawing;
use text::space::space_of;
use tree::Counts;
use trimming::nodes::trim_text_nodes;
use walk::node::Opened;

// `parse_svg_element` of a text element below `parent`, then `parse_svg_text_element`. The answer has the cursor behind it.
pub fn parse_svg_text_element(
    drawing: &Drawing,
    slots: &[u16],
    nodes: &mut [u32],
    attributes: &mut [u32],
    text: &mut [u8],
    counts: Counts,
    parent: u32,
    ignored: bool,
    x: Opened,
) -> Result<Parsed, Refusal>
    requires beginning { Beginning drawing.now (tree_of nodes.old attributes.old text.old counts) parent x }
    requires memo { Memo drawing.now slots.now }
    ensures outcome { parsed_of nodes.new attributes.new text.new result
        ≡ label (plain drawing.now.characters.now) (document drawing.now)
        (element_of drawing.now x)
        (events_at drawing.now x.inside) ignored parent
        (tree_of nodes.old attributes.old text.old counts) }
    ensures behind { ClosedFit drawing.now x.inside counts.nodes nodes.new attributes.new text.new result }
{
    let e = counts.nodes;
    let opened = parse_svg_element(
        drawing,
        nodes,
        attributes,
        counts,
        parent,
        eid::TEXT,
        ignored,
        x,
    )?;
    let space = space_of(nodes, attributes, drawing.characters, e);
    let first = State {
        c: opened.behind,
        p: e,
        counts: opened.counts,
        space,
    };
    let all = inside(drawing, slots, nodes, attributes, text, e, first)?;
    trim_text_nodes(nodes, attributes, text, drawing.characters, all.counts, e);
    Ok(all)
}
