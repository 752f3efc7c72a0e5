// Where the links of nodes lead, found once for each pass and kept behind the importance of their entries.
#![tactic(auto)]

pub mod mark;
pub mod name;
pub mod recent;
pub mod resolve;
