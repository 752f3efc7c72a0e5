// The tables at the beginning and at the end of a build.
ghost use Rattle.std.specs.Prelude.{◌≡◌, List, ℕ, ◌*◌, ◌<◌, ◌≤◌, length};
ghost use Rattle.model.specs.Tables.{word, refused};
ghost use Rattle.model.specs.Build.{answered, first_is_svg};
ghost use Rattle.tree.specs.Lent.{tree_of, nodes_read};
ghost use Rattle.refusal.specs.Number.{number_of};
ghost use Rattle.build.specs.Results.{built_of, result_of, nothing, cleared_as, left_by};

use crate::Built;
use names::eid;
use refusal::Refusal;
use repair::pass::is_named;
use tree::word::node_link;
use tree::{Counts, word};

// All three tables become zero.
pub fn clear(nodes: &mut [u32], attributes: &mut [u32], text: &mut [u8])
    ensures { tree_of nodes.new attributes.new text.new nothing ≡ cleared_as nodes.old attributes.old text.old }
{
    nodes.fill(0);
    attributes.fill(0);
    text.fill(0);
}

// What every refusal goes through, by its number. A build that is refused clears the tables; a fault of an exchange's call leaves them as
// they are.
pub fn refuse(
    nodes: &mut [u32],
    attributes: &mut [u32],
    text: &mut [u8],
    number: u32,
    clears: bool,
) -> Built
    ensures { (chars : List ℕ) → result_of chars nodes.new attributes.new text.new result
        ≡ answered chars (left_by clears nodes.old attributes.old text.old) (refused number) }
{
    if clears {
        clear(nodes, attributes, text);
    }
    Built {
        number,
        nodes: 0,
        attributes: 0,
        text: 0,
    }
}

// A build that is refused.
pub fn refuse_build(
    nodes: &mut [u32],
    attributes: &mut [u32],
    text: &mut [u8],
    refusal: Refusal,
) -> Result<Counts, Refusal>
    ensures { (chars : List ℕ) → result_of chars nodes.new attributes.new text.new (built_of result)
        ≡ answered chars (cleared_as nodes.old attributes.old text.old) (refused (number_of refusal)) }
{
    refuse(nodes, attributes, text, u32::from(refusal), true);
    Err(refusal)
}

// Is the first element there, and is it `svg`?
pub fn first_is_svg(nodes: &[u32]) -> bool
    requires { (7 < length nodes.now) × (8 * word nodes.now 0 3 ≤ length nodes.now) }
    ensures { result ≡ first_is_svg (nodes_read nodes.now) }
{
    let Some(first) = node_link(nodes, 0, word::FIRST_CHILD) else {
        return false;
    };
    is_named(nodes, eid::SVG, first)
}
