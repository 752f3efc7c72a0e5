// Why a drawing, an exchange or a question is refused.
#![tactic(auto)]

ghost use Rattle.std.specs.Prelude.{◌≡◌};
ghost use Rattle.refusal.specs.Number.{number_of, answer_of};

// The causes, each with its number in docs/MANUAL.md.
#[derive(Clone, Copy, PartialEq, Eq, Debug)]
pub enum Refusal {
    TooLong = 1,
    UnknownCommand = 2,
    UnknownCode = 3,
    Misplaced = 4,
    TooManyOpen = 5,
    OutOfCharacters = 6,
    WrongReadings = 7,
    CharactersLeft = 8,
    NotUtf8 = 9,
    ElementsLimitReached = 20,
    NotAnSvg = 21,
    NodesFull = 22,
    AttributesFull = 23,
    TextFull = 24,
    NoSuchText = 30,
    InStyle = 31,
    OtherLength = 32,
    NewNotUtf8 = 33,
    UnsoundTables = 40,
    NoSuchNode = 41,
    NoSuchAttribute = 42,
}

impl From<Refusal> for u32 {
    ghost from_gives = { λ r n. n ≡ number_of r };

    fn from(r: Refusal) -> u32 {
        r as u32
    }
}

// The number of an answer that has nothing but its refusal: 0 where nothing is refused.
pub fn answer_number(answer: Result<(), Refusal>) -> u32
    ensures { result ≡ answer_of answer }
{
    match answer {
        Ok(()) => 0,
        Err(refusal) => refusal.into(),
    }
}
