//! The form of a market file: which lines it has, in which order, with how many words and in which ranges.
#![tactic(auto)]

pub mod due;
pub mod file;
pub mod form;
mod head;
pub mod kinds;
pub mod ledger;
pub mod node;
pub mod numbered;
mod sections;
