// Marks: the places of some commands, so that no command is looked for from the beginning of the script.
ghost use Rattle.std.specs.Prelude.{◌≡◌, ◌<◌, ◌≤◌, length};
ghost use Rattle.model.specs.Check.{most_bytes};
ghost use Rattle.script.specs.Step.{Fit, place_of};
ghost use Rattle.places.specs.Marks.{Marked};

use crate::seek::seek;
use script::cursor::Cursor;
use script::drawing::Drawing;

// The places of 256 commands, and how many commands lie between two of them, 0 where none is set.
#[derive(Drop)]
pub struct Marks {
    pub stride: usize,
    pub places: [Cursor; 256],
}

impl Marks {
    ghost use Rattle.places.specs.Marks.{unset};

    // No mark is set.
    pub fn new() -> Marks
        ensures { result ≡ unset }
    {
        Marks {
            stride: 0,
            places: [Cursor::start(); 256],
        }
    }
}

// A place from which to look for the command behind that many: the hint, or a mark that is nearer.
fn near(drawing: &Drawing, marks: &Marks, number: usize, hint: Cursor) -> Cursor
    requires fit { Fit drawing.now hint }
    requires marked { Marked drawing.now marks.now }
    ensures { Fit drawing.now result }
{
    let stride = marks.stride;
    if stride == 0 {
        return hint;
    }
    if hint.number <= number && number - hint.number < stride {
        return hint;
    }
    let mark = marks.places[(number / stride).min(255)];
    if mark.number <= hint.number && hint.number <= number {
        return hint;
    }
    mark
}

// The cursor behind that many commands; where there are fewer, behind the last whole one. Hint and marks only save time.
pub fn seek_near(drawing: &Drawing, marks: &Marks, number: usize, hint: Cursor) -> Cursor
    requires fit_2 { Fit drawing.now hint }
    requires marked { Marked drawing.now marks.now }
    ensures same { result ≡ place_of drawing.now number }
    ensures fit { Fit drawing.now result }
{
    let from = near(drawing, marks, number, hint);
    seek(drawing, number, from)
}

// How many commands lie between two marks, so that they reach to the last.
#[tactic(auto, using(script::proofs::Commands::placed_first))]
fn stride_of(drawing: &Drawing) -> usize
    requires { length drawing.now.script.now ≤ most_bytes }
    ensures { (0 < result) × (result ≤ 4112) }
{
    let c = Cursor::start();
    let last = seek(drawing, drawing.script.len(), c);
    last.number / 256 + 16
}

// All marks of a script, in one walk behind the one that counts its commands.
#[tactic(auto, using(script::proofs::Commands::placed_first))]
pub fn set_marks(drawing: &Drawing, marks: &mut Marks)
    requires { Marked drawing.now marks.old }
    ensures { Marked drawing.now marks.new }
{
    let stride = stride_of(drawing);
    marks.stride = stride;
    let mut c = Cursor::start();
    let mut number = 0;
    for place in &mut marks.places {
        c = seek(drawing, number, c);
        *place = c;
        if c.number < number {
            return;
        }
        number += stride;
    }
}
