// The pieces of a text element: which elements are read in it, the texts that its trefs quote, and the spaces of its open levels.
#![tactic(auto)]

pub mod content;
pub mod quote;
pub mod remember;

// The spaces that the nodes above the open one hand down, from the nearest on, as far as they are remembered: a bit for each, first those
// of `top` below its highest bit, from the lowest on, then those of the words before the word `full`, the last of them first.
#[derive(Clone, Copy)]
pub struct Levels {
    pub words: [u64; 32],
    pub top: u64,
    pub full: usize,
}
