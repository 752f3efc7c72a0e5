// build: a drawing in three lent tables, or the cause of a refusal.
#![tactic(auto)]

ghost use Rattle.build.specs.Results.{built_of};

use refusal::Refusal;
use tree::Counts;

pub mod tables;
pub mod whole;

// The answer of a build for a host: a number, 0 where the drawing was built, and how many records, entries and bytes of the tables are
// taken then.
#[repr(C)]
#[derive(Clone, Copy)]
pub struct Built {
    pub number: u32,
    pub nodes: u32,
    pub attributes: u32,
    pub text: u32,
}

impl From<Result<Counts, Refusal>> for Built {
    ghost use Rattle.std.specs.Prelude.{◌≡◌};

    ghost from_gives = { λ r b. b ≡ built_of r };

    fn from(answer: Result<Counts, Refusal>) -> Built {
        match answer {
            Ok(counts) => Built {
                number: 0,
                nodes: counts.nodes,
                attributes: counts.attributes,
                text: counts.text,
            },
            Err(refusal) => Built {
                number: refusal.into(),
                nodes: 0,
                attributes: 0,
                text: 0,
            },
        }
    }
}
