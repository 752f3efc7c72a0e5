// exchange: one text of a drawing becomes other bytes of equal length, and the tables are built anew.
#![tactic(auto)]

pub mod fault;
pub mod put;
pub mod whole;
