// `append_attribute` and `resolve_inherit`: what becomes of a value. Nothing is written here.
ghost use Rattle.std.specs.Prelude.{◌≡◌, [], ℕ, ◌+◌, ◌≤◌, eqb, length, IfSome};
ghost use Rattle.std.proofs.Math.Seq.{slice};
ghost use Rattle.model.specs.Base.{and, or, same_bytes};
ghost use Rattle.model.specs.EId;
ghost use Rattle.model.specs.AId;
ghost use Rattle.model.specs.Names.{inherit_default, allows_inherit_value};
ghost use Rattle.model.specs.Drawing.{part_at};
ghost use Rattle.model.specs.Element.{inherit_word, inherited_from, copy_from, default_of, resolve_inherit, append_attribute};
ghost use Rattle.tree.specs.Lent.{plus_one, read_of, Readable, Climbable};
ghost use Rattle.entries.specs.Space.{resolved_of};

use crate::{Place, Value, own_entry};
use names::{aid, allows_inherit_value, eid, inherit_default, is_inherit, is_inheritable};
use tree::Entry;
use tree::read::{attribute_id, entry_at, holder_of};

// The copy of an attribute of that node, if there is one.
#[tactic(auto, unfolding(model::specs::Tables::entry_at))]
fn copy_from(nodes: &[u32], attributes: &[u32], name: u32, from: Option<u32>) -> Option<Entry>
    requires { IfSome from (Readable (read_of nodes.now attributes.now)) }
    ensures { resolved_of result ≡ copy_from (read_of nodes.now attributes.now) 0 name (plus_one from) }
{
    let j = attribute_id(nodes, attributes, from?, name)?;
    Some(entry_at(attributes, j))
}

// The fixed value that a name has at the top, with importance 0, where it has one.
fn default_of(name: u32) -> Option<Entry>
    ensures { resolved_of result ≡ default_of (read_of [] []) 0 name (inherit_default name) }
{
    let start = inherit_default(name)?;
    Some(Entry {
        name,
        important: 0,
        start,
        size: 0,
        command: 0,
    })
}

// The node that a value `inherit` is taken from: the nearest holder from the parent up, or the parent itself.
#[tactic(auto, unfolding(model::specs::Element::inherited_from))]
fn inherited_from(nodes: &[u32], attributes: &[u32], parent: u32, name: u32) -> Option<u32>
    requires { Climbable (read_of nodes.now attributes.now) parent }
    ensures found { plus_one result ≡ inherited_from (read_of nodes.now attributes.now) parent name }
    ensures within { IfSome result (λ i. i ≤ parent) }
{
    if is_inheritable(name) {
        holder_of(nodes, attributes, name, parent)
    } else {
        Some(parent)
    }
}

// `resolve_inherit`: the copy, else the fixed value, else the value is dropped.
#[tactic(auto, unfolding(model::specs::Element::resolve_inherit))]
fn resolve_inherit(nodes: &[u32], attributes: &[u32], parent: u32, name: u32) -> Option<Entry>
    requires { Climbable (read_of nodes.now attributes.now) parent }
    ensures { resolved_of result ≡ resolve_inherit (read_of nodes.now attributes.now) parent name }
{
    let from = inherited_from(nodes, attributes, parent, name);
    copy_from(nodes, attributes, name, from).or_else(|| default_of(name))
}

// Is the attribute never kept: style and class, and href on a tspan?
fn is_left_out(tag: u32, name: u32) -> bool
    ensures { result ≡ or (or (eqb name AId.Style) (eqb name AId.Class)) (and (eqb tag EId.Tspan) (eqb name AId.Href)) }
{
    let is_tspan = tag == eid::TSPAN;
    name == aid::STYLE || name == aid::CLASS || is_tspan && name == aid::HREF
}

// Is the value exactly `inherit`, and the name one that may be inherited? The value decides most often.
fn is_inherited(characters: &[u8], name: u32, value: Value) -> bool
    requires { value.start + value.size ≤ length characters.now }
    ensures { result ≡ and (allows_inherit_value name)
        (same_bytes (slice value.start (value.start + value.size) characters.now) inherit_word) }
{
    is_inherit(value.bytes(characters)) && allows_inherit_value(name)
}

// `append_attribute`: the entry for a value, if there is to be one.
#[tactic(auto, unfolding(model::specs::Element::append_attribute, model::specs::Drawing::part_at))]
pub fn append_attribute(
    nodes: &[u32],
    attributes: &[u32],
    characters: &[u8],
    place: Place,
    name: u32,
    important: u32,
    value: Value,
) -> Option<Entry>
    requires climbable { Climbable (read_of nodes.now attributes.now) place.parent }
    requires size_in_bounds { value.start + value.size ≤ length characters.now }
    ensures { resolved_of result ≡ append_attribute (read_of nodes.now attributes.now) place.parent place.tag name important
        (part_at characters.now value.start value.size) value.command }
{
    if is_left_out(place.tag, name) {
        return None;
    }
    if is_inherited(characters, name, value) {
        return resolve_inherit(nodes, attributes, place.parent, name);
    }
    Some(own_entry(name, important, value))
}
