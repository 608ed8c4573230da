//! What each rule promises in its own words, and what rules answer in small markets.
#![tactic(auto)]

pub mod promises;
#[cfg(test)]
mod tests;
