#![tactic(auto)]

// Nothing runs here: specs/ holds what the standards say, and what is proved of the crate `model` from it.
