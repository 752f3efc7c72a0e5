// The entries of one element, stored in the lent table behind those that are taken: what one attribute becomes, and one value of a
// declaration.
// `place` and `next` stay two parameters: the place is the same for all entries of an element, and each step answers the next `next`.
#![tactic(auto)]

ghost use Rattle.std.specs.Prelude.{◌≡◌, ◌+◌, ◌≤◌, length};
ghost use Rattle.std.proofs.Math.Seq.{slice};
ghost use Rattle.tree.specs.Lent.{entry_of};
ghost use Rattle.entries.specs.Space.{own_entry};

use tree::Entry;

pub mod attribute;
pub mod entry;
pub mod inherit;
pub mod insert;

// A value: its place in the characters, and the number of its command.
#[derive(Clone, Copy)]
pub struct Value {
    pub start: u32,
    pub size: u32,
    pub command: u32,
}

impl Value {
    pub fn bytes<'a>(&self, characters: &'a [u8]) -> &'a [u8]
        requires { self.now.start + self.now.size ≤ length characters.now }
        ensures { result.now ≡ slice self.now.start (self.now.start + self.now.size) characters.now }
    {
        let from = self.start as usize;
        let to = from + self.size as usize;
        &characters[from..to]
    }
}

// Where an element's entries go: its parent's index, its name in the tree, its first entry, and how many entries there is room for.
#[derive(Clone, Copy)]
pub struct Place {
    pub parent: u32,
    pub tag: u32,
    pub first: u32,
    pub room: u32,
}

// The entry with a value itself.
pub fn own_entry(name: u32, important: u32, value: Value) -> Entry
    ensures { entry_of result ≡ own_entry name important value }
{
    Entry {
        name,
        important,
        start: value.start,
        size: value.size,
        command: value.command,
    }
}
