// The attributes and declarations of an element and the readings of their values, one after another.
ghost use Rattle.std.specs.Prelude.{◌≡◌, ◌+◌, ◌≤◌};
ghost use Rattle.std.proofs.Math.Seq.{slice};
ghost use Rattle.model.specs.Drawing.{attribute_in, reading_of};
ghost use Rattle.model.specs.Repair.{any_reading};
ghost use Rattle.script.specs.Step.{Fit, most_place, most_start};
ghost use Rattle.walk.specs.Values.{attributes_in, declarations_in, readings_in, attributes_of, AttributeFit};
ghost use Rattle.walk.specs.Values.{declarations_of, DeclarationFit, readings_of, ReadingFit, value_in, ValueFit, part_of, PartFit};

use names::same;
use script::cursor::{Cursor, Step};
use script::drawing::Drawing;

// The value of an attribute or of a declaration: its own place, its length, and the cursor behind its command.
#[derive(Clone, Copy)]
pub struct ValueAt {
    pub own: Cursor,
    pub len: u32,
    pub behind: Cursor,
}

// An attribute or a declaration: its name, its namespace or its importance, and its value.
#[derive(Clone, Copy)]
pub struct Named {
    pub name: u8,
    pub qualifier: u8,
    pub value: ValueAt,
}

// A part of the characters.
#[derive(Clone, Copy)]
pub struct Part {
    pub start: usize,
    pub len: u32,
}

// A reading of a value: its kind, its part of the characters, and the cursor behind it.
#[derive(Clone, Copy)]
pub struct ReadingAt {
    pub kind: u8,
    pub part: Part,
    pub behind: Cursor,
}

// The part of the characters of that length; what of it lies past their end is cut off.
pub fn part_at(characters: &[u8], start: usize, len: u32) -> &[u8]
    requires { start ≤ most_start }
    ensures { result.now ≡ slice start (start + len) characters.now }
{
    let size = characters.len();
    let end = start + len as usize;
    &characters[start.min(size)..end.min(size)]
}

// The next attribute of an element, from inside it; where none is left, the cursor behind the last one, before its declarations and its
// children.
#[inline(always)]
pub fn next_attribute(drawing: &Drawing, from: Cursor) -> Result<Named, Cursor>
    requires { Fit drawing.now from }
    ensures same { attributes_of drawing.now result ≡ attributes_in drawing.now from }
    ensures fit { AttributeFit drawing.now from result }
{
    let mut c = from;
    loop {
        match c.next(drawing) {
            Step::Attribute(name, namespace, len, behind) => {
                let value = ValueAt {
                    own: c,
                    len,
                    behind,
                };
                return Ok(Named {
                    name,
                    qualifier: namespace,
                    value,
                });
            }
            Step::Reading(_, _, _, behind) => {
                c = behind;
            }
            Step::Declaration(_, _, _, _) => {
                return Err(c);
            }
            _ => {
                return Err(c);
            }
        }
    }
}

// The next declaration of an element, from inside it; where none is left, a cursor behind its attributes, before its children.
pub fn next_declaration(drawing: &Drawing, from: Cursor) -> Result<Named, Cursor>
    requires { Fit drawing.now from }
    ensures same { declarations_of drawing.now result ≡ declarations_in drawing.now from }
    ensures fit { DeclarationFit drawing.now from result }
{
    let mut c = from;
    loop {
        match c.next(drawing) {
            Step::Declaration(name, important, len, behind) => {
                let value = ValueAt {
                    own: c,
                    len,
                    behind,
                };
                return Ok(Named {
                    name,
                    qualifier: important,
                    value,
                });
            }
            Step::Attribute(_, _, _, n) => {
                c = n;
            }
            Step::Reading(_, _, _, n) => {
                c = n;
            }
            _ => {
                return Err(c);
            }
        }
    }
}

// The next reading of a value that begins at start, from behind it.
pub fn next_reading(drawing: &Drawing, c: Cursor, start: usize) -> Option<ReadingAt>
    requires fit_2 { Fit drawing.now c }
    requires start_le_most_place { start ≤ most_place }
    ensures same { readings_of drawing.now start result ≡ readings_in drawing.now start c }
    ensures fit { ReadingFit drawing.now c result }
{
    let Step::Reading(kind, offset, len, behind) = c.next(drawing) else {
        return None;
    };
    let part = Part {
        start: start + offset as usize,
        len,
    };
    Some(ReadingAt { kind, part, behind })
}

// The first attribute of an element with that name in that namespace, from inside it; where there is none, the cursor behind the
// attributes.
#[tactic(auto, using(crate::proofs::Finding::by_name))]
pub fn attribute_in(drawing: &Drawing, from: Cursor, space: u8, name: u8) -> Result<ValueAt, Cursor>
    requires { Fit drawing.now from }
    ensures same { value_in drawing.now result ≡ attribute_in space name (attributes_in drawing.now from) }
    ensures fit { ValueFit drawing.now from result }
{
    let mut c = from;
    loop {
        let x = next_attribute(drawing, c)?;
        if x.qualifier == space && x.name == name {
            return Ok(x.value);
        }
        c = x.value.behind;
    }
}

// The first reading of a kind, of a value that begins at start, from behind it.
#[tactic(auto, using(crate::proofs::Finding::by_kind))]
pub fn reading_of(drawing: &Drawing, from: Cursor, start: usize, kind: u8) -> Option<Part>
    requires fit_2 { Fit drawing.now from }
    requires start_le_most_place { start ≤ most_place }
    ensures same { part_of drawing.now.characters.now result ≡ reading_of kind (readings_in drawing.now start from) }
    ensures fit { PartFit result }
{
    let mut c = from;
    loop {
        let x = next_reading(drawing, c, start)?;
        if x.kind == kind {
            return Some(x.part);
        }
        c = x.behind;
    }
}

// Has a value that begins at start, from behind it, a reading of that kind with these bytes?
#[tactic(auto, using(crate::proofs::Finding::by_bytes))]
pub fn any_reading(drawing: &Drawing, from: Cursor, start: usize, kind: u8, id: &[u8]) -> bool
    requires fit { Fit drawing.now from }
    requires start_le_most_place { start ≤ most_place }
    ensures { result ≡ any_reading kind id.now (readings_in drawing.now start from) }
{
    let mut c = from;
    while let Some(x) = next_reading(drawing, c, start) {
        if x.kind == kind && same(part_at(drawing.characters, x.part.start, x.part.len), id) {
            return true;
        }
        c = x.behind;
    }
    false
}
