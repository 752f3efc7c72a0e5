// The walks over a drawing. Each is lent the script and the characters side by side.
#![tactic(auto)]

pub mod node;
pub mod value;
