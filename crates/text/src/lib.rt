// The texts of a text element: the space that a node hands down, spaces of one text, and its node, over the lent tables.
#![tactic(auto)]

pub mod append;
pub mod space;
pub mod trim;

// `XmlSpace`
#[derive(Clone, Copy, PartialEq, Eq)]
pub enum XmlSpace {
    Default,
    Preserve,
}

// What one source leaves for the next: how many bytes stand in the place, and the last byte that was read, a white space as a space.
#[derive(Clone, Copy)]
pub struct Trimmed {
    pub size: usize,
    pub prev: u8,
}

// A text of the script: its number, and its place in the characters.
#[derive(Clone, Copy)]
pub struct Source {
    pub number: u32,
    pub start: u32,
    pub size: u32,
}
