// The commands of a script, one after another.
ghost use Rattle.std.specs.Prelude.{◌≡◌, ◌+◌, ◌*◌, ◌^◌, ◌≤◌, ◌<◌, length};
ghost use Rattle.model.specs.Check.{most_bytes};
ghost use Rattle.model.specs.Drawing.{operands, word_at};
ghost use Rattle.script.specs.Step.{Fit, at_start, step_at, Going};

use super::drawing::Drawing;

// A place between two commands: in the script, in the characters, and the commands and texts so far.
#[derive(Clone, Copy)]
pub struct Cursor {
    pub at: usize,
    pub chars: usize,
    pub number: usize,
    pub texts: usize,
}

// What stands at a cursor: a command with the cursor behind it, a broken command's byte, or the end.
#[derive(Clone, Copy)]
pub enum Step {
    Open(u8, u8, Cursor),
    Attribute(u8, u8, u32, Cursor),
    Declaration(u8, u8, u32, Cursor),
    Reading(u8, u32, u32, Cursor),
    Text(u32, Cursor),
    Other(Cursor),
    Close(Cursor),
    Broken(u8),
    End,
}

// How many bytes of operands follow a command byte.
fn operands_of(b: u8) -> usize
    ensures { result ≡ operands b }
{
    match b {
        1 => 2,
        2 => 6,
        3 => 6,
        4 => 9,
        5 => 4,
        _ => 0,
    }
}

// The u32 at a place, little-endian.
fn word(s: &[u8], at: usize) -> u32
    requires { at + 4 ≤ length s.now }
    ensures { result ≡ word_at s.now at }
{
    u32::from_le_bytes([s[at], s[at + 1], s[at + 2], s[at + 3]])
}

impl Cursor {
    // Before the first command.
    pub fn start() -> Cursor
        ensures { result ≡ at_start }
    {
        Cursor {
            at: 0,
            chars: 0,
            number: 0,
            texts: 0,
        }
    }

    // The cursor behind a command of that many bytes, characters and texts.
    fn past(self, bytes: usize, chars: u32, texts: usize) -> Cursor
        requires bytes_bound { (self.at + bytes ≤ most_bytes) × (self.chars ≤ self.at * 2 ^ 32) × (self.number ≤ self.at) }
        requires texts_le_at { (self.texts ≤ self.at) × (texts ≤ 1) }
        ensures { result ≡ record {
          at = self.at + bytes;
          chars = self.chars + chars;
          number = self.number + 1;
          texts = self.texts + texts;
        } }
    {
        Cursor {
            at: self.at + bytes,
            chars: self.chars + chars as usize,
            number: self.number + 1,
            texts: self.texts + texts,
        }
    }

    // The command at the cursor, with the cursor behind it.
    pub fn next(self, drawing: &Drawing) -> Step
        requires { Fit drawing.now self }
        ensures step { result ≡ step_at drawing.now self }
        ensures going { Going drawing.now result }
    {
        self.next_inlined(drawing)
    }

    // The same, written into the caller: for walks that take every command in their own loop.
    #[inline(always)]
    pub fn next_inlined(self, drawing: &Drawing) -> Step
        requires { Fit drawing.now self }
        ensures step { result ≡ step_at drawing.now self }
        ensures going { Going drawing.now result }
    {
        let script = drawing.script;
        let at = self.at;
        if script.len() <= at {
            return Step::End;
        }
        let b = script[at];
        if script.len() - at - 1 < operands_of(b) {
            return Step::Broken(b);
        }
        match b {
            1 => {
                let name = script[at + 1];
                let space = script[at + 2];
                Step::Open(name, space, self.past(3, 0, 0))
            }
            2 => {
                let name = script[at + 1];
                let space = script[at + 2];
                let len = word(script, at + 3);
                Step::Attribute(name, space, len, self.past(7, len, 0))
            }
            3 => {
                let name = script[at + 1];
                let important = script[at + 2];
                let len = word(script, at + 3);
                Step::Declaration(name, important, len, self.past(7, len, 0))
            }
            4 => {
                let kind = script[at + 1];
                let start = word(script, at + 2);
                let len = word(script, at + 6);
                Step::Reading(kind, start, len, self.past(10, 0, 0))
            }
            5 => {
                let len = word(script, at + 1);
                Step::Text(len, self.past(5, len, 1))
            }
            6 => Step::Other(self.past(1, 0, 0)),
            7 => Step::Close(self.past(1, 0, 0)),
            _ => Step::Broken(b),
        }
    }
}
