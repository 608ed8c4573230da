//! The pile of rules of a market: tenancy on tree on the queue or the priorities.
#![tactic(auto)]

pub mod pile;
