// The searches in a drawing that follow links: ids, the elements that use and tref lead to, the `use`s inside an element. Each is lent the
// script and the characters side by side.
#![tactic(auto)]

pub mod link;
pub mod uses;
