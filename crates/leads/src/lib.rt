// Where the links of nodes lead: their ids are compared with those of elements.
#![tactic(auto)]

pub mod filter;
pub mod id;
pub mod last;
pub mod link;
