// Links: ids, the elements that use and tref lead to.
ghost use Rattle.std.specs.Prelude.{◌≡◌, ◌≤◌, length};
ghost use Rattle.model.specs.Base.{or_else};
ghost use Rattle.model.specs.AId;
ghost use Rattle.model.specs.Check.{most_bytes};
ghost use Rattle.model.specs.Drawing.{attribute_in, iri_of, use_href, tref_href, linked_by};
ghost use Rattle.model.specs.Drawing.{leads_back, uses_in, use_target, quoted};
ghost use Rattle.script.specs.Step.{Fit, document};
ghost use Rattle.walk.specs.Values.{attributes_in, events_at, value_in, Readable, part_of, PartFit};
ghost use Rattle.walk.specs.Nodes.{element_of, node_at, Standing};
ghost use Rattle.memo.specs.Plain.{node_of, NodeFit};
ghost use Rattle.memo.specs.Table.{Memo};
ghost use Rattle.links.specs.Links.{texts_of, same_parts, leading_id};

use super::uses::next_use;
use memo::link::HREF;
use memo::plain::first_id;
use memo::table::find;
use names::same;
use script::cursor::Cursor;
use script::drawing::Drawing;
use walk::node::{Opened, has_tag_name};
use walk::value::{Part, ValueAt, attribute_in, part_at, reading_of};

// The IRI that the host has read in a value.
fn iri_of(drawing: &Drawing, value: Result<ValueAt, Cursor>) -> Option<Part>
    requires { Readable drawing.now value }
    ensures same { part_of drawing.now.characters.now result ≡ iri_of (value_in drawing.now value) }
    ensures fit { PartFit result }
{
    let v = value.ok()?;
    reading_of(drawing, v.behind, v.own.chars, 1)
}

// The IRI of the first href in one namespace; where there is none, of the first in the other.
fn href_of(drawing: &Drawing, inside: Cursor, first: u8, second: u8) -> Option<Part>
    requires { Fit drawing.now inside }
    ensures same { part_of drawing.now.characters.now result
        ≡ iri_of (or_else (attribute_in first AId.Href (attributes_in drawing.now inside))
        (attribute_in second AId.Href (attributes_in drawing.now inside))) }
    ensures fit { PartFit result }
{
    // No or_else: of a closure that holds a drawing the check knows no equation.
    let value = match attribute_in(drawing, inside, first, HREF) {
        Ok(v) => Ok(v),
        Err(_) => attribute_in(drawing, inside, second, HREF),
    };
    iri_of(drawing, value)
}

// The link of a use.
pub fn use_href(drawing: &Drawing, e: Opened) -> Option<Part>
    requires { Standing drawing.now e }
    ensures same { part_of drawing.now.characters.now result ≡ use_href (element_of drawing.now e) }
    ensures fit { PartFit result }
{
    href_of(drawing, e.inside, 0, 2)
}

// The link of a tref.
pub fn tref_href(drawing: &Drawing, e: Opened) -> Option<Part>
    requires { Standing drawing.now e }
    ensures same { part_of drawing.now.characters.now result ≡ tref_href (element_of drawing.now e) }
    ensures fit { PartFit result }
{
    href_of(drawing, e.inside, 2, 0)
}

// The element that a link leads to: the first with that id.
pub fn linked(drawing: &Drawing, slots: &[u16], link: Option<Part>) -> Option<Opened>
    requires script_len_bound { length drawing.now.script.now ≤ most_bytes }
    requires part_fit { PartFit link }
    requires memo { Memo drawing.now slots.now }
    ensures same { node_of drawing.now result ≡ linked_by (document drawing.now) (part_of drawing.now.characters.now link) }
    ensures fit { NodeFit drawing.now result }
{
    let p = link?;
    find(drawing, slots, part_at(drawing.characters, p.start, p.len))
}

// Are both parts there, with the same bytes?
fn same_parts(characters: &[u8], a: Option<Part>, b: Option<Part>) -> bool
    requires part_fit { PartFit a }
    requires part_fit_2 { PartFit b }
    ensures { result ≡ same_parts (part_of characters.now a) (part_of characters.now b) }
{
    match (a, b) {
        (Some(p), Some(q)) => {
            let first = part_at(characters, p.start, p.len);
            let second = part_at(characters, q.start, q.len);
            same(first, second)
        }
        _ => false,
    }
}

// The id by which links lead to an element: its first unprefixed one, if it is the first element with it.
pub fn leading_id(drawing: &Drawing, slots: &[u16], e: Opened) -> Option<Part>
    requires standing { Standing drawing.now e }
    requires memo { Memo drawing.now slots.now }
    ensures same { part_of drawing.now.characters.now result ≡ leading_id (document drawing.now) (element_of drawing.now e) }
    ensures fit { PartFit result }
{
    let v = first_id(drawing, e).ok()?;
    let part = Part {
        start: v.own.chars,
        len: v.len,
    };
    let f = find(
        drawing,
        slots,
        part_at(drawing.characters, part.start, part.len),
    )?;
    if f.own.number == e.own.number {
        return Some(part);
    }
    None
}

// Does a use inside the element l, to which the link of the use e leads, lead to e or to l? Links are compared with the ids of these two.
fn leads_back_by(drawing: &Drawing, slots: &[u16], e: Opened, l: Opened, link: Option<Part>) -> bool
    requires standing { Standing drawing.now e }
    requires standing_2 { Standing drawing.now l }
    requires part_fit { PartFit link }
    requires l_value { node_at drawing.now l ≡ linked_by (document drawing.now) (part_of drawing.now.characters.now link) }
    requires memo { Memo drawing.now slots.now }
    ensures { result ≡ leads_back (document drawing.now)
        (element_of drawing.now e).number
        (element_of drawing.now l).number
        (uses_in 0 (events_at drawing.now l.inside)) }
{
    let id = leading_id(drawing, slots, e);
    let mut c = l.inside;
    let mut level: usize = 0;
    while let Some(u) = next_use(drawing, c, level) {
        let href = use_href(drawing, u.element);
        if same_parts(drawing.characters, href, id) || same_parts(drawing.characters, href, link) {
            return true;
        }
        level = u.open_elements;
        c = u.element.inside;
    }
    false
}

// The same, where there may be no use inside l: then nothing is looked for.
pub fn leads_back(
    drawing: &Drawing,
    slots: &[u16],
    e: Opened,
    l: Opened,
    link: Option<Part>,
) -> bool
    requires standing { Standing drawing.now e }
    requires standing_2 { Standing drawing.now l }
    requires part_fit { PartFit link }
    requires l_value { node_at drawing.now l ≡ linked_by (document drawing.now) (part_of drawing.now.characters.now link) }
    requires memo { Memo drawing.now slots.now }
    ensures { result ≡ leads_back (document drawing.now)
        (element_of drawing.now e).number
        (element_of drawing.now l).number
        (uses_in 0 (events_at drawing.now l.inside)) }
{
    next_use(drawing, l.inside, 0).is_some() && leads_back_by(drawing, slots, e, l, link)
}

// The element that a use, met with that origin, copies; nothing where it copies none.
#[tactic(auto, using(crate::proofs::Sets::use_target_set))]
pub fn use_target(drawing: &Drawing, slots: &[u16], e: Opened, origin: usize) -> Option<Opened>
    requires standing { Standing drawing.now e }
    requires memo { Memo drawing.now slots.now }
    ensures same { node_of drawing.now result ≡ use_target (document drawing.now) (element_of drawing.now e) origin }
    ensures fit { NodeFit drawing.now result }
{
    let link = use_href(drawing, e);
    let l = linked(drawing, slots, link)?;
    if !has_tag_name(l.name, l.space) {
        return None;
    }
    let number = l.own.number + 1;
    if number == e.own.number + 1 {
        return None;
    }
    let is_origin = number == origin;
    if is_origin {
        return None;
    }
    if leads_back(drawing, slots, e, l, link) {
        return None;
    }
    Some(l)
}

// The element whose texts a tref quotes; nothing where it quotes none.
pub fn quoted(drawing: &Drawing, slots: &[u16], e: Opened) -> Option<Opened>
    requires standing { Standing drawing.now e }
    requires memo { Memo drawing.now slots.now }
    ensures same { texts_of drawing.now result ≡ quoted (document drawing.now) (element_of drawing.now e) }
    ensures fit { NodeFit drawing.now result }
{
    let l = linked(drawing, slots, tref_href(drawing, e))?;
    if has_tag_name(l.name, l.space) {
        return Some(l);
    }
    None
}
