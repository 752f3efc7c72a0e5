// The spaces of the levels that are open inside a text element, a bit for each, so that none is looked for when a level closes. Words that
// are full lie in an array; what has no room there any more is forgotten, and looked for in the tables.
ghost use Rattle.std.specs.Prelude.{◌≡◌, ◌≤◌, IfNone};
ghost use Rattle.text.specs.Spaces.{space_in};
ghost use Rattle.pieces.specs.Levels.{bit_of, Fresh, Pushed, SplitFit, AboveFit};

use crate::Levels;
use text::XmlSpace;

// The highest bit of a word.
const HIGHEST: u64 = 1 << 63;

fn bit_of(space: XmlSpace) -> u64
    ensures { result ≡ bit_of (space_in space) }
{
    match space {
        XmlSpace::Default => 0,
        XmlSpace::Preserve => 1,
    }
}

// The space in the lowest bit of a word, and the others.
fn split(top: u64) -> (XmlSpace, u64)
    requires { 2 ≤ top }
    ensures { SplitFit top result }
{
    let space = if top % 2 == 0 {
        XmlSpace::Default
    } else {
        XmlSpace::Preserve
    };
    (space, top / 2)
}

impl Levels {
    // Nothing is remembered.
    pub fn nothing() -> Levels
        ensures { Fresh result }
    {
        Levels {
            words: [0; 32],
            top: 1,
            full: 0,
        }
    }

    // One level more, that hands down `space`.
    pub fn push(&mut self, space: XmlSpace)
        requires { self.old.full ≤ 32 }
        ensures { Pushed self.old (space_in space) self.new }
    {
        let bit = bit_of(space);
        let top = self.top;
        if top < HIGHEST {
            self.top = top * 2 + bit;
            return;
        }
        let full = self.full;
        if full < 32 {
            self.words[full] = top;
            self.top = 2 + bit;
            self.full = full + 1;
            return;
        }
        self.top = 2 + bit;
        self.full = 0;
    }

    // One level less: the nearest of the spaces that are remembered, and the others are left. Where none is remembered, all stays as it is.
    pub fn pop(&mut self) -> Option<XmlSpace>
        requires { self.old.full ≤ 32 }
        ensures above { AboveFit self.old result self.new }
        ensures words { self.new.words ≡ self.old.words }
        ensures none { IfNone result (self.new ≡ self.old) }
    {
        let top = self.top;
        if top >= 2 {
            let (space, rest) = split(top);
            self.top = rest;
            return Some(space);
        }
        let last = self.full.checked_sub(1)?;
        let word = self.words[last];
        if word >= 2 {
            let (space, rest) = split(word);
            self.top = rest;
            self.full = last;
            return Some(space);
        }
        None
    }
}
