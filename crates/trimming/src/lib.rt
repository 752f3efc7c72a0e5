// `trim_text_nodes`: the text nodes of a text element, one pair after another.
#![tactic(auto)]

pub mod depth;
pub mod nodes;

// A turn of `trim_text_nodes`: two text nodes, one behind the other; the last text before that was not blank; and whether it is the first
// turn and the last one.
#[derive(Clone, Copy)]
pub struct Turn {
    pub a: u32,
    pub b: u32,
    pub kept: Option<u32>,
    pub first: bool,
    pub last: bool,
}
