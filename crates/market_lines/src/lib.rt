//! The lines of a market file as records of their kinds, and the faults that a file can have.
#![tactic(auto)]

pub mod fault;
pub mod kind;
pub mod line;
pub mod report;
