// The four questions about the tree in the three lent tables, and the test that the tables are sound.
#![tactic(auto)]

ghost use Rattle.std.specs.Prelude.{◌≡◌};
ghost use Rattle.questions.specs.Answers.{answer_of, answered};

use refusal::Refusal;

pub mod find;
pub mod question;
pub mod sound;

// The answer of a question for C: a number, 0 if nothing stands against it; whether there is an index, 1 or 0; and the index.
#[repr(C)]
#[derive(Clone, Copy)]
pub struct Answer {
    pub number: u32,
    pub found: u32,
    pub index: u32,
}

impl From<Result<Option<u32>, Refusal>> for Answer {
    ghost from_gives = { λ r a. a ≡ answered (answer_of r) };

    fn from(asked: Result<Option<u32>, Refusal>) -> Answer {
        match asked {
            Ok(Some(index)) => Answer {
                number: 0,
                found: 1,
                index,
            },
            Ok(None) => Answer {
                number: 0,
                found: 0,
                index: 0,
            },
            Err(refusal) => Answer {
                number: u32::from(refusal),
                found: 0,
                index: 0,
            },
        }
    }
}

// A part of the text table.
#[repr(C)]
#[derive(Clone, Copy)]
pub struct Part {
    pub start: u32,
    pub size: u32,
}
