//! Inheritance rules: who owns a place in a row.
#![tactic(auto)]

pub mod base;
pub mod claim;
pub mod layer;
pub mod ordered;
pub mod orders;
pub mod priorities;
pub mod question;
pub mod queue;
pub mod rule;
mod sizes;
pub mod tenancy;
pub mod tree;
