// The commands of a script, and check.
#![tactic(auto)]

pub mod check;
pub mod cursor;
pub mod drawing;
