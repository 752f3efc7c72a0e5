// One attribute of an element: whether it is taken, and what it becomes.
ghost use Rattle.std.specs.Prelude.{◌≡◌, not, ◌+◌, ◌≤◌, eqb, leb, length};
ghost use Rattle.std.proofs.Math.Seq.{slice};
ghost use Rattle.model.specs.Base.{and, or, among_words};
ghost use Rattle.model.specs.AId;
ghost use Rattle.model.specs.Names.{is_attribute, image_rendering_words};
ghost use Rattle.model.specs.Drawing.{part_at};
ghost use Rattle.model.specs.Element.{append_attribute, is_taken, with_more, add_attribute};
ghost use Rattle.tree.specs.Lent.{read_of, Climbable};
ghost use Rattle.entries.specs.Space.{Space, Leaves, so_far, attribute_of};

use crate::entry::add_entry;
use crate::inherit::append_attribute;
use crate::{Place, Value};
use names::{aid, is_attribute, is_declared_only, is_image_rendering_word};
use refusal::Refusal;
use tree::read::find_entry;
use tree::write::put_value;

// A name of the list, in no namespace, SVG, XLink or XML.
fn is_known(name: u32, space: u32) -> bool
    ensures { result ≡ and (leb space 3) (is_attribute name) }
{
    space <= 3 && is_attribute(name)
}

// In a used element ids are ignored.
fn is_ignored_id(ignored: bool, name: u32) -> bool
    ensures { result ≡ and ignored (eqb name AId.Id) }
{
    ignored && name == aid::ID
}

// An image-rendering with one of the four words that only a declaration may have.
fn is_rendering_word(characters: &[u8], name: u32, value: Value) -> bool
    requires { value.start + value.size ≤ length characters.now }
    ensures { result ≡ and (eqb name AId.ImageRendering)
        (among_words (slice value.start (value.start + value.size) characters.now) image_rendering_words) }
{
    name == aid::IMAGE_RENDERING && is_image_rendering_word(value.bytes(characters))
}

// An href in another namespace than none and XLink.
fn is_other_href(name: u32, space: u32) -> bool
    ensures { result ≡ and (eqb name AId.Href) (not (or (eqb space 0) (eqb space 2))) }
{
    name == aid::HREF && space != 0 && space != 2
}

// Is the attribute taken at all?
#[tactic(auto, unfolding(model::specs::Element::is_taken, model::specs::Drawing::part_at))]
fn is_taken(characters: &[u8], ignored: bool, name: u32, space: u32, value: Value) -> bool
    requires { value.start + value.size ≤ length characters.now }
    ensures { result ≡ is_taken ignored (attribute_of characters.now name space value) }
{
    is_known(name, space)
        && !is_ignored_id(ignored, name)
        && !is_declared_only(name)
        && !is_rendering_word(characters, name, value)
        && !is_other_href(name, space)
}

// The attribute is one more entry, unless it is dropped.
fn append_more(
    nodes: &[u32],
    attributes: &mut [u32],
    characters: &[u8],
    place: Place,
    next: u32,
    name: u32,
    value: Value,
) -> Result<u32, Refusal>
    requires space { Space attributes.old place next }
    requires climbable { Climbable (read_of nodes.now attributes.old) place.parent }
    requires size_in_bounds { value.start + value.size ≤ length characters.now }
    ensures { Leaves attributes.old place
        (with_more (so_far attributes.old place next)
        (append_attribute (read_of nodes.now attributes.old) place.parent place.tag name 0
        (part_at characters.now value.start value.size) value.command)) result attributes.new }
{
    match append_attribute(nodes, attributes, characters, place, name, 0, value) {
        Some(e) => add_entry(attributes, place, next, e),
        None => Ok(next),
    }
}

// One attribute. Where an href is kept already, an unprefixed one overwrites its value, and an XLink one is skipped.
#[tactic(auto, using(crate::proofs::Storing::is_none), unfolding(model::specs::Drawing::part_at, model::specs::Element::add_attribute))]
pub fn add_attribute(
    nodes: &[u32],
    attributes: &mut [u32],
    characters: &[u8],
    place: Place,
    next: u32,
    ignored: bool,
    name: u8,
    space: u8,
    value: Value,
) -> Result<u32, Refusal>
    requires space { Space attributes.old place next }
    requires climbable { Climbable (read_of nodes.now attributes.old) place.parent }
    requires size_in_bounds { value.start + value.size ≤ length characters.now }
    ensures { Leaves attributes.old place
        (add_attribute (read_of nodes.now attributes.old) place.parent place.tag ignored
        (so_far attributes.old place next) (attribute_of characters.now name space value)) result
        attributes.new }
{
    let code = u32::from(name);
    if !is_taken(characters, ignored, code, u32::from(space), value) {
        return Ok(next);
    }
    if code != aid::HREF {
        return append_more(nodes, attributes, characters, place, next, code, value);
    }
    let Some(j) = find_entry(attributes, aid::HREF, place.first, next) else {
        return append_more(nodes, attributes, characters, place, next, code, value);
    };
    let is_unprefixed = space == 0;
    if is_unprefixed {
        put_value(attributes, j, value.start, value.size, value.command);
    }
    Ok(next)
}
