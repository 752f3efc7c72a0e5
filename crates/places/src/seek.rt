// Texts and commands by their numbers.
ghost use Rattle.std.specs.Prelude.{◌≡◌, ◌≤◌, [], IfSome, IfNone, leb, length};
ghost use Rattle.model.specs.Base.{pick};
ghost use Rattle.model.specs.Check.{most_bytes};
ghost use Rattle.model.specs.Drawing.{text_numbered, is_in_style, reading_of};
ghost use Rattle.model.specs.Repair.{any_reading};
ghost use Rattle.script.specs.Step.{Fit, at_start, place_of, document};
ghost use Rattle.walk.specs.Values.{part_of, PartFit};
ghost use Rattle.places.specs.Seeks.{source_of, style_of, FoundFit, style_level, Passed, IsLast, ReadFrom, readings_here};

use names::eid;
use script::cursor::{Cursor, Step};
use script::drawing::Drawing;
use walk::node::{Item, next_item};
use walk::value::{Part, any_reading, reading_of};

// The code of the element style.
const STYLE: u8 = eid::STYLE as u8;

// A text that is looked for: its own place, its length, and whether it stands inside an element named style.
#[derive(Clone, Copy)]
pub struct FoundText {
    pub own: Cursor,
    pub len: u32,
    pub in_style: bool,
}

// The elements open from the outermost style on, behind the open of an element.
fn style_level(level: usize, name: u8) -> usize
    requires { level ≤ most_bytes }
    ensures { result ≡ style_level level name }
{
    if level != 0 {
        level + 1
    } else {
        usize::from(name == STYLE)
    }
}

// The text with that number, and whether it stands inside an element named style.
pub fn find_text(drawing: &Drawing, number: usize) -> Option<FoundText>
    requires { length drawing.now.script.now ≤ most_bytes }
    ensures text { source_of drawing.now.characters.now result ≡ text_numbered number (document drawing.now) }
    ensures style { style_of result ≡ is_in_style number 0 (document drawing.now) }
    ensures fit { FoundFit drawing.now result }
{
    let mut c = Cursor::start();
    let mut level: usize = 0;
    loop {
        match next_item(drawing, c) {
            Item::Begin(e) => {
                level = style_level(level, e.name);
                c = e.inside;
            }
            Item::Text(own, len, n) => {
                if own.texts + 1 == number {
                    let in_style = level != 0;
                    return Some(FoundText { own, len, in_style });
                }
                c = n;
            }
            Item::Other(n) => c = n,
            Item::Close(n) => {
                level = level.saturating_sub(1);
                c = n;
            }
            Item::End => return None,
        }
    }
}

// The hint, where it stands behind at most that many commands; else the beginning.
fn nearest(number: usize, hint: Cursor) -> Cursor
    ensures { result ≡ pick (leb hint.number number) (λ u. hint) (λ u. at_start) }
{
    let is_before = hint.number <= number;
    if is_before {
        return hint;
    }
    Cursor::start()
}

// The cursor behind the command that stands at the cursor, if a whole one does.
fn behind_command(drawing: &Drawing, c: Cursor) -> Option<Cursor>
    requires { Fit drawing.now c }
    ensures some { IfSome result (Passed drawing.now c) }
    ensures none { IfNone result (IsLast drawing.now c) }
{
    match c.next_inlined(drawing) {
        Step::Open(_, _, n)
        | Step::Attribute(_, _, _, n)
        | Step::Declaration(_, _, _, n)
        | Step::Reading(_, _, _, n)
        | Step::Text(_, n)
        | Step::Other(n)
        | Step::Close(n) => Some(n),
        Step::Broken(_) | Step::End => None,
    }
}

// The cursor behind that many commands; where there are fewer, behind the last whole one. The hint only saves time.
pub fn seek(drawing: &Drawing, number: usize, hint: Cursor) -> Cursor
    requires { Fit drawing.now hint }
    ensures same { result ≡ place_of drawing.now number }
    ensures fit { Fit drawing.now result }
{
    let mut c = nearest(number, hint);
    while c.number != number
        && let Some(n) = behind_command(drawing, c)
    {
        c = n;
    }
    c
}

// The cursor behind the command that stands at the cursor, where that is an attribute or a declaration: the readings of its value follow.
pub fn behind_value(drawing: &Drawing, c: Cursor) -> Option<Cursor>
    requires { Fit drawing.now c }
    ensures some { IfSome result (ReadFrom drawing.now c) }
    ensures none { IfNone result (readings_here drawing.now c ≡ []) }
{
    match c.next(drawing) {
        Step::Attribute(_, _, _, n) | Step::Declaration(_, _, _, n) => Some(n),
        _ => None,
    }
}

// The first reading of a kind, of the value whose command stands at the cursor.
pub fn reading_at(drawing: &Drawing, c: Cursor, kind: u8) -> Option<Part>
    requires { Fit drawing.now c }
    ensures same { part_of drawing.now.characters.now result ≡ reading_of kind (readings_here drawing.now c) }
    ensures fit { PartFit result }
{
    let behind = behind_value(drawing, c)?;
    reading_of(drawing, behind, c.chars, kind)
}

// Has that value a reading of that kind with these bytes?
pub fn any_reading_at(drawing: &Drawing, c: Cursor, kind: u8, id: &[u8]) -> bool
    requires { Fit drawing.now c }
    ensures { result ≡ any_reading kind id.now (readings_here drawing.now c) }
{
    // No is_some_and: of a closure that holds a drawing the check knows no equation.
    match behind_value(drawing, c) {
        Some(behind) => any_reading(drawing, behind, c.chars, kind, id),
        None => false,
    }
}
