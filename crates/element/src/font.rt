// A declaration of `font`: what it resets, and its parts.
ghost use Rattle.std.specs.Prelude.{◌≡◌, [], ◌+◌, ◌≤◌, ◌<◌, length};
ghost use Rattle.model.specs.Base.{folded, pick, and, ◌gives◌};
ghost use Rattle.model.specs.Check.{most_bytes};
ghost use Rattle.model.specs.Names.{font_resets};
ghost use Rattle.model.specs.Element.{font_parts, is_read};
ghost use Rattle.tree.specs.Lent.{read_of};
ghost use Rattle.entries.specs.Space.{Space, Leaves, so_far, Above};
ghost use Rattle.element.specs.Font.{value_from, Held, declaration_of, reset_as, parts_of, font_in};

use crate::value_of;
use entries::entry::insert_entry;
use entries::insert::insert_attribute;
use entries::{Place, Value};
use names::aid;
use refusal::Refusal;
use script::drawing::Drawing;
use tree::Entry;
use walk::value::{ValueAt, reading_of};

// What a font declaration resets, in its order, each name with the number of its fixed value: normal, but none for font-size-adjust and
// auto for font-kerning.
const RESETS: [(u32, u32); 12] = [
    (aid::FONT_STYLE, 3),
    (aid::FONT_VARIANT, 3),
    (aid::FONT_WEIGHT, 3),
    (aid::FONT_STRETCH, 3),
    (aid::LINE_HEIGHT, 3),
    (aid::FONT_SIZE_ADJUST, 1),
    (aid::FONT_KERNING, 2),
    (aid::FONT_VARIANT_CAPS, 3),
    (aid::FONT_VARIANT_LIGATURES, 3),
    (aid::FONT_VARIANT_NUMERIC, 3),
    (aid::FONT_VARIANT_EAST_ASIAN, 3),
    (aid::FONT_VARIANT_POSITION, 3),
];

// The kinds of reading that are parts of a font, in the order in which they are set, each with the name that it sets.
const PARTS: [(u8, u32); 6] = [
    (5, aid::FONT_STRETCH),
    (6, aid::FONT_WEIGHT),
    (7, aid::FONT_VARIANT),
    (8, aid::FONT_STYLE),
    (9, aid::FONT_SIZE),
    (10, aid::FONT_FAMILY),
];

// All resets, one after another, with the declaration's importance.
fn reset_font(
    attributes: &mut [u32],
    place: Place,
    next: u32,
    important: u32,
) -> Result<u32, Refusal>
    requires { Space attributes.old place next }
    ensures { Leaves attributes.old place
        (folded (reset_as important) (so_far attributes.old place next) font_resets) result attributes.new }
{
    let mut n = next;
    for (name, start) in RESETS {
        let e = Entry {
            name,
            important,
            start,
            size: 0,
            command: 0,
        };
        n = insert_entry(attributes, place, n, name, e)?;
    }
    Ok(n)
}

// Has the declaration a reading of that kind?
fn is_read(drawing: &Drawing, v: ValueAt, kind: u8) -> bool
    requires { Held drawing.now v }
    ensures { result ≡ is_read (read_of [] []) 0 0 (declaration_of drawing.now 0 0 v) kind }
{
    reading_of(drawing, v.behind, v.own.chars, kind).is_some()
}

// A part under that name and the declaration's command, where there is a reading of its kind.
fn insert_part(
    drawing: &Drawing,
    nodes: &[u32],
    attributes: &mut [u32],
    place: Place,
    next: u32,
    important: u32,
    v: ValueAt,
    kind: u8,
    name: u32,
) -> Result<u32, Refusal>
    requires space { Space attributes.old place next }
    requires above { Above nodes.now place }
    requires held { Held drawing.now v }
    ensures { Leaves attributes.old place
        (parts_of drawing.now nodes.now place important v attributes.old
        (so_far attributes.old place next) (kind gives name)) result attributes.new }
{
    let Some(part) = reading_of(drawing, v.behind, v.own.chars, kind) else {
        return Ok(next);
    };
    let value = Value {
        start: part.start as u32,
        size: part.len,
        command: value_of(v).command,
    };
    insert_attribute(
        nodes,
        attributes,
        drawing.characters,
        place,
        next,
        name,
        important,
        value,
    )
}

// All parts, one after another.
fn insert_parts(
    drawing: &Drawing,
    nodes: &[u32],
    attributes: &mut [u32],
    place: Place,
    next: u32,
    important: u32,
    v: ValueAt,
) -> Result<u32, Refusal>
    requires space { Space attributes.old place next }
    requires above { Above nodes.now place }
    requires held { Held drawing.now v }
    ensures { Leaves attributes.old place
        (folded (parts_of drawing.now nodes.now place important v attributes.old)
        (so_far attributes.old place next) font_parts) result attributes.new }
{
    let mut n = next;
    for (kind, name) in PARTS {
        n = insert_part(
            drawing, nodes, attributes, place, n, important, v, kind, name,
        )?;
    }
    Ok(n)
}

// `write_declaration` of a font: nothing without a size and a family; else what it resets, then its parts.
pub fn insert_font(
    drawing: &Drawing,
    nodes: &[u32],
    attributes: &mut [u32],
    place: Place,
    next: u32,
    important: u32,
    v: ValueAt,
) -> Result<u32, Refusal>
    requires space { Space attributes.old place next }
    requires above { Above nodes.now place }
    requires held { Held drawing.now v }
    ensures { Leaves attributes.old place
        (font_in drawing.now nodes.now place important v attributes.old
        (so_far attributes.old place next)) result attributes.new }
{
    if !is_read(drawing, v, 9) || !is_read(drawing, v, 10) {
        return Ok(next);
    }
    let n = reset_font(attributes, place, next, important)?;
    insert_parts(drawing, nodes, attributes, place, n, important, v)
}
