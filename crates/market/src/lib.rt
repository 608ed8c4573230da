//! The nouns of a market: agents, places, tenants, the nodes of inheritance trees, standings and refusals.
#![tactic(auto)]

pub mod agent;
pub mod node;
pub mod place;
pub mod refusal;
pub mod sizes;
pub mod standing;
pub mod tenant;
