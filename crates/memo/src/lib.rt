// Elements by their ids: the plain search, and a table that is filled once and makes the search short.
#![tactic(auto)]

pub mod fill;
pub mod key;
pub mod link;
pub mod plain;
pub mod table;
pub mod words;
