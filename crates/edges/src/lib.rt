// The edges of text nodes: blank texts, spaces at the ends, and the steps of `trim_text_nodes` for one text and for a pair.
#![tactic(auto)]

pub mod blank;
pub mod edge;
pub mod step;

// A pair of text nodes: their indexes, whether the second stands deeper, whether it is the first pair of the element and the last one, and
// whether the space of each is Default.
#[derive(Clone, Copy)]
pub struct Pair {
    pub node1: u32,
    pub node2: u32,
    pub deeper: bool,
    pub first: bool,
    pub last: bool,
    pub default1: bool,
    pub default2: bool,
}

// Which edges of the two texts of a pair have a space: >text<..>text<
//                                                      1  2    3  4
#[derive(Clone, Copy)]
pub struct Edges {
    pub c1: bool,
    pub c2: bool,
    pub c3: bool,
    pub c4: bool,
}
