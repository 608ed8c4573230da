// Tenants: who holds a place before the exchange.
use crate::agent::Agent;
use crate::place::Place;

/// A place and the agent that holds it.
#[derive(Clone, Copy)]
pub struct Tenant {
    pub place: Place,
    pub agent: Agent,
}
