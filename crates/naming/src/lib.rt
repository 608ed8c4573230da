//! What the lines of a market file name: nothing twice, and parents that come earlier.
#![tactic(auto)]

pub mod fault;
pub mod noted;
mod repeat;
