// The space of a node.
ghost use Rattle.std.specs.Prelude.{◌≡◌, ℕ, ◌+◌, ◌-◌, ◌*◌, ◌<◌, ◌≤◌, length};
ghost use Rattle.model.specs.Tables.{parent_of};
ghost use Rattle.model.specs.Text.{get_xmlspace, space_of, is_default};
ghost use Rattle.tree.specs.Lent.{read_of, ReadableIn, Climbable};
ghost use Rattle.text.specs.Spaces.{space_in, space_by, space_at};

use crate::XmlSpace;
use names::aid;
use tree::read::{attribute_id, has_value, holder_of};
use tree::word;
use tree::word::node_word;

// Is it Default?
pub fn is_default(space: XmlSpace) -> bool
    ensures { result ≡ is_default (space_in space) }
{
    space == XmlSpace::Default
}

// `get_xmlspace`: what node i says itself, else `space`.
#[tactic(auto, unfolding(model::specs::Tables::entry_at, model::specs::Text::get_xmlspace))]
pub fn get_xmlspace(
    nodes: &[u32],
    attributes: &[u32],
    characters: &[u8],
    i: u32,
    space: XmlSpace,
) -> XmlSpace
    requires { ReadableIn (length characters.now) (read_of nodes.now attributes.now) i }
    ensures { space_in result ≡ get_xmlspace characters.now (read_of nodes.now attributes.now) i (space_in space) }
{
    let Some(j) = attribute_id(nodes, attributes, i, aid::SPACE) else {
        return space;
    };
    space_by(!has_value(attributes, characters, j, b"preserve"))
}

// The space that is handed down to node i: what the nearest of it and its ancestors says that says anything.
#[tactic(auto, unfolding(model::specs::Text::space_of))]
pub fn space_of(nodes: &[u32], attributes: &[u32], characters: &[u8], i: u32) -> XmlSpace
    requires climbable { Climbable (read_of nodes.now attributes.now) i }
    requires by_index { (k : ℕ) → k ≤ i → ReadableIn (length characters.now) (read_of nodes.now attributes.now) k }
    ensures { space_in result ≡ space_of characters.now (read_of nodes.now attributes.now) i }
{
    match holder_of(nodes, attributes, aid::SPACE, i) {
        Some(k) => get_xmlspace(nodes, attributes, characters, k, XmlSpace::Default),
        None => XmlSpace::Default,
    }
}

// The space by whether it is Default.
fn space_by(default: bool) -> XmlSpace
    ensures { space_in result ≡ space_by default }
{
    if default {
        XmlSpace::Default
    } else {
        XmlSpace::Preserve
    }
}

// Is the space Default that the parent of node i says? Where it says none, the text element's is asked.
pub fn is_default_at(
    nodes: &[u32],
    attributes: &[u32],
    characters: &[u8],
    i: u32,
    default: bool,
) -> bool
    requires i_in_bounds { 8 * i + 7 < length nodes.now }
    requires i_nonzero { 0 < parent_of (read_of nodes.now attributes.now) i }
    requires readable_in { ReadableIn (length characters.now) (read_of nodes.now attributes.now)
        (parent_of (read_of nodes.now attributes.now) i - 1) }
    ensures { result ≡ is_default (space_at characters.now (read_of nodes.now attributes.now) (space_by default) i) }
{
    let parent = node_word(nodes, i, word::PARENT);
    is_default(get_xmlspace(nodes, attributes, characters, parent - 1, space_by(default)))
}
