//! Who comes next for a place: orders of agents, trees of heirs and tenants, as lists.
#![tactic(auto)]

pub mod data;
pub mod order;
pub mod priority;
pub mod range;
pub mod row;
pub mod tenants;
pub mod tree;
