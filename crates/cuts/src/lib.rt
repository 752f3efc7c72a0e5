// What leads back to one element is cut.
#![tactic(auto)]

pub mod back;
pub mod below;
pub mod cut;
pub mod key;
pub mod pair;
pub mod quiet;

use targets::name::Pass;

// An element to which links may lead: the pass that asks, the element's index, and the mark of the links that lead to it.
#[derive(Clone, Copy)]
pub struct Aim {
    pub pass: Pass,
    pub element: u32,
    pub key: usize,
}
