// Texts and commands of a drawing by their numbers. Each search is lent the script and the characters side by side.
#![tactic(auto)]

pub mod marks;
pub mod seek;
