// build: check, the tables cleared, the root, the nodes, the first element's test, the repairs.
ghost use Rattle.std.specs.Prelude.{◌≡◌, ◌≤◌, length};
ghost use Rattle.model.specs.Tables.{then};
ghost use Rattle.model.specs.Parse.{plain};
ghost use Rattle.model.specs.Build.{parsed, tested, with_repairs, answered, build};
ghost use Rattle.script.specs.Step.{Checked, document};
ghost use Rattle.memo.specs.Table.{Memo};
ghost use Rattle.tree.specs.Lent.{tree_of};
ghost use Rattle.build.specs.Results.{built_of, result_of, root_alone, cleared_as, Tended, Rooted};

use crate::tables::{clear, first_is_svg, refuse_build};
use memo::link::may_link;
use parse::State;
use parse::node::parse_xml_node_children;
use parse::unbuilt::pass_unbuilt;
use refusal::Refusal;
use repair::whole::repair;
use script::check::check;
use script::cursor::Cursor;
use script::drawing::Drawing;
use tree::Counts;
use tree::room::node_room;
use tree::write::put_root;

// What is still to do when all nodes are built: the first element's test, and the repairs.
fn finish(
    drawing: &Drawing,
    nodes: &mut [u32],
    attributes: &mut [u32],
    text: &mut [u8],
    counts: Counts,
) -> Result<Counts, Refusal>
    requires { Tended drawing.now (tree_of nodes.old attributes.old text.old counts) }
    ensures { result_of drawing.now.characters.now nodes.new attributes.new text.new (built_of result)
        ≡ answered drawing.now.characters.now (cleared_as nodes.old attributes.old text.old)
        (with_repairs drawing.now.characters.now (document drawing.now)
        (tested (tree_of nodes.old attributes.old text.old counts))) }
{
    if !first_is_svg(nodes) {
        return refuse_build(nodes, attributes, text, Refusal::NotAnSvg);
    }
    repair(drawing, nodes, attributes, counts);
    Ok(counts)
}

// What is still to do behind the root, by the table of ids. The recursion begins before the first command, with the root alone taken; what
// stands before the first element is passed over.
fn fill_by(
    drawing: &Drawing,
    slots: &[u16],
    nodes: &mut [u32],
    attributes: &mut [u32],
    text: &mut [u8],
) -> Result<Counts, Refusal>
    requires rooted { Rooted drawing.now (tree_of nodes.old attributes.old text.old root_alone) }
    requires memo { Memo drawing.now slots.now }
    ensures { result_of drawing.now.characters.now nodes.new attributes.new text.new (built_of result)
        ≡ answered drawing.now.characters.now (cleared_as nodes.old attributes.old text.old)
        (with_repairs drawing.now.characters.now (document drawing.now)
        (then (parsed (plain drawing.now.characters.now) (document drawing.now)
        (tree_of nodes.old attributes.old text.old root_alone)) tested)) }
{
    let mut state = State {
        cursor: Cursor::start(),
        children: Cursor::start(),
        copier: 0,
        origin: 0,
        counts: Counts {
            nodes: 1,
            attributes: 0,
            text: 0,
        },
    };
    pass_unbuilt(&mut state, drawing, 1025);
    let built = parse_xml_node_children(
        &mut state, 1025, 0, drawing, nodes, attributes, text, slots,
    );
    match built {
        Ok(()) => finish(drawing, nodes, attributes, text, state.counts),
        Err(refusal) => refuse_build(nodes, attributes, text, refusal),
    }
}

// What is still to do behind the root, with a table of ids of N words: it tells nothing where they are few.
fn fill_with<const N: usize>(
    drawing: &Drawing,
    nodes: &mut [u32],
    attributes: &mut [u32],
    text: &mut [u8],
) -> Result<Counts, Refusal>
    requires size { N ≤ 32768 }
    requires rooted { Rooted drawing.now (tree_of nodes.old attributes.old text.old root_alone) }
    ensures { result_of drawing.now.characters.now nodes.new attributes.new text.new (built_of result)
        ≡ answered drawing.now.characters.now (cleared_as nodes.old attributes.old text.old)
        (with_repairs drawing.now.characters.now (document drawing.now)
        (then (parsed (plain drawing.now.characters.now) (document drawing.now)
        (tree_of nodes.old attributes.old text.old root_alone)) tested)) }
{
    let mut slots: [u16; N] = [0; N];
    memo::fill::fill(drawing, &mut slots);
    fill_by(drawing, &slots, nodes, attributes, text)
}

// What is still to do behind the root: no link is followed by an id, or few, or any number.
fn fill(
    drawing: &Drawing,
    nodes: &mut [u32],
    attributes: &mut [u32],
    text: &mut [u8],
) -> Result<Counts, Refusal>
    requires { Rooted drawing.now (tree_of nodes.old attributes.old text.old root_alone) }
    ensures { result_of drawing.now.characters.now nodes.new attributes.new text.new (built_of result)
        ≡ answered drawing.now.characters.now (cleared_as nodes.old attributes.old text.old)
        (with_repairs drawing.now.characters.now (document drawing.now)
        (then (parsed (plain drawing.now.characters.now) (document drawing.now)
        (tree_of nodes.old attributes.old text.old root_alone)) tested)) }
{
    if !may_link(drawing.script) {
        return fill_with::<1>(drawing, nodes, attributes, text);
    }
    if drawing.script.len() < 16384 {
        return fill_with::<2048>(drawing, nodes, attributes, text);
    }
    fill_with::<32768>(drawing, nodes, attributes, text)
}

// The build of a drawing that check takes.
pub fn build_checked(
    drawing: &Drawing,
    nodes: &mut [u32],
    attributes: &mut [u32],
    text: &mut [u8],
) -> Result<Counts, Refusal>
    requires { Checked drawing.now }
    ensures { result_of drawing.now.characters.now nodes.new attributes.new text.new (built_of result)
        ≡ build drawing.now.script.now drawing.now.characters.now (length nodes.old) (length attributes.old)
        (length text.old) }
{
    clear(nodes, attributes, text);
    if node_room(nodes) == 0 {
        return Err(Refusal::NodesFull);
    }
    put_root(nodes);
    fill(drawing, nodes, attributes, text)
}

// A drawing in the three tables. Every refusal clears them.
pub fn build(
    drawing: &Drawing,
    nodes: &mut [u32],
    attributes: &mut [u32],
    text: &mut [u8],
) -> Result<Counts, Refusal>
    ensures { result_of drawing.now.characters.now nodes.new attributes.new text.new (built_of result)
        ≡ build drawing.now.script.now drawing.now.characters.now (length nodes.old) (length attributes.old)
        (length text.old) }
{
    let checked = check(drawing);
    let is_refused = checked.is_err();
    if is_refused {
        return refuse_build(nodes, attributes, text, checked.unwrap_err());
    }
    build_checked(drawing, nodes, attributes, text)
}
