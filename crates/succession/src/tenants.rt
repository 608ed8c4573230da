// Tenants: who claims the place that it holds.
ghost use Rattle.std.specs.Prelude.{◌≡◌};
ghost use Rattle.succession.specs.Tenancies.{same_place, tenant_fits, are_tenants, holds_still, tenant_claims};

use crate::data::{Entry, all_right};
use crate::range::{agent_fits, place_fits};
use crate::row::is_waiting;
use market::agent::Agent;
use market::place::Place;
use market::sizes::Sizes;
use market::standing::Standing;
use market::tenant::Tenant;

impl Entry for Tenant {
    ghost alike = { same_place };

    ghost sound = { λ n m _ t. tenant_fits n m t };

    fn is_like(&self, other: &Tenant) -> bool {
        other.place == self.place
    }

    fn is_sound(&self, sizes: Sizes, _earlier: &[Tenant]) -> bool {
        place_fits(sizes.places, self.place) && agent_fits(sizes.agents, self.agent)
    }
}

/// Whether a list is one of tenants: each place and each agent in range, and no place twice.
pub fn are_tenants(sizes: Sizes, tenants: &[Tenant]) -> bool
    ensures { result ≡ are_tenants sizes.agents sizes.places tenants.now }
{
    all_right(sizes, tenants)
}

/// Whether a tenant has the place and waits.
fn holds_still(tenant: &Tenant, row: &[Standing], place: Place) -> bool
    ensures { result ≡ holds_still row.now place tenant.now }
{
    tenant.place == place && is_waiting(row, tenant.agent)
}

/// The tenant of a place, if it waits.
pub fn waiting_tenant(tenants: &[Tenant], row: &[Standing], place: Place) -> Option<Agent>
    ensures { result ≡ tenant_claims tenants.now row.now place }
{
    tenants
        .iter()
        .find(|tenant| holds_still(tenant, row, place))
        .map(|tenant| tenant.agent)
}
