// What an exchange is asked for: a text of the drawing, and bytes that may stand for it.
ghost use Rattle.std.specs.Prelude.{◌≡◌, not, [], ◌∷◌, eqb, length};
ghost use Rattle.model.specs.Utf8.{is_utf8};
ghost use Rattle.model.specs.Check.{◌if◌, first_of};
ghost use Rattle.refusal.specs.Number.{answer_of};
ghost use Rattle.exchange.specs.Changes.{TargetFit};

use places::seek::find_text;
use refusal::Refusal;
use script::check::check;
use script::drawing::Drawing;
use utf8::is_utf8;

// The fault of an exchange of a text of that length, inside style or not, for these bytes.
fn text_fault(len: u32, in_style: bool, new: &[u8]) -> Result<(), Refusal>
    ensures { answer_of result ≡ first_of (31 if in_style ∷ 32 if not (eqb (length new.now) len) ∷ 33 if not (is_utf8 new.now) ∷ []) }
{
    if in_style {
        return Err(Refusal::InStyle);
    }
    if new.len() != len as usize {
        return Err(Refusal::OtherLength);
    }
    if !is_utf8(new) {
        return Err(Refusal::NewNotUtf8);
    }
    Ok(())
}

// Where the text begins that is to become these bytes. The faults in their order: check's, no such text, and the text's.
pub fn target_of(drawing: &Drawing, number: u32, new: &[u8]) -> Result<usize, Refusal>
    ensures { TargetFit drawing.now.script.now drawing.now.characters.now number new.now result }
{
    check(drawing)?;
    let Some(found) = find_text(drawing, number as usize) else {
        return Err(Refusal::NoSuchText);
    };
    text_fault(found.len, found.in_style, new)?;
    Ok(found.own.chars)
}
