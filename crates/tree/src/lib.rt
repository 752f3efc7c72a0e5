// The three tables of the tree, lent by the caller: what is read in them, and what a build writes.
#![tactic(auto)]

ghost use Rattle.std.specs.Prelude.{◌≡◌};
ghost use Rattle.tree.specs.Lent.{number_of_kind};

pub mod read;
pub mod room;
pub mod word;
pub mod write;

// How many records, entries and bytes of the tables are taken.
#[repr(C)]
#[derive(Clone, Copy)]
pub struct Counts {
    pub nodes: u32,
    pub attributes: u32,
    pub text: u32,
}

// The kinds of node.
#[derive(Clone, Copy, PartialEq, Eq, Debug)]
pub enum Kind {
    Root = 1,
    Element = 2,
    Text = 3,
}

impl From<Kind> for u32 {
    ghost from_gives = { λ kind n. n ≡ number_of_kind kind };

    fn from(kind: Kind) -> u32 {
        kind as u32
    }
}

// What the record of a new node says of it: its kind, by number, since a record takes any word as one; the element code; and its entries
// or the bytes of its text.
#[derive(Clone, Copy)]
pub struct NewNode {
    pub kind: u32,
    pub code: u32,
    pub from: u32,
    pub to: u32,
}

// An attribute's record. A fixed value has command 0, its number as start, and size 0.
#[derive(Clone, Copy)]
pub struct Entry {
    pub name: u32,
    pub important: u32,
    pub start: u32,
    pub size: u32,
    pub command: u32,
}
