// The elements with an id, found without a look at every node. While the repairs run, each id's entry has, in its word of importance, the
// element before it whose id falls into the same of 2,048 buckets.
#![tactic(auto)]

pub mod bucket;
pub mod chain;
pub mod find;
pub mod heads;
pub mod plain;
