//! The market that a file says, in room made beforehand, and the reader that fills it.
#![tactic(auto)]

mod lists;
pub mod reader;
pub mod record;
