// The tenancy: tenants over a rule below.
ghost use Rattle.market.specs.Data.{TenantsOf};
ghost use Rattle.succession.proofs.Holding.{tenants_right, tenants_fit, tenancy_lawful, tenancy_owns};
ghost use Rattle.succession.specs.Tenancies.{are_tenants, tenant_claims, TenancyOwns};

use crate::claim::Claim;
use crate::layer::Layer;
use market::agent::Agent;
use market::place::Place;
use market::sizes::Sizes;
use market::standing::Standing;
use market::tenant::Tenant;
use succession::tenants::{are_tenants, waiting_tenant};

/// A tenancy: a tenant that waits owns its place, and otherwise the rule below answers.
pub type Tenancy<'a, R> = Layer<'a, R, Tenant>;

impl Claim for Tenant {
    ghost fits = { are_tenants };

    ghost Right = { TenantsOf };

    ghost claims = { tenant_claims };

    ghost Owns = { TenancyOwns };

    ghost laws = { record { test = record { right = tenants_right; passes = tenants_fit }; lawful = tenancy_lawful; owns = tenancy_owns } };

    fn are_right(sizes: Sizes, tenants: &[Tenant]) -> bool {
        are_tenants(sizes, tenants)
    }

    fn claimant(tenants: &[Tenant], row: &[Standing], place: Place) -> Option<Agent> {
        waiting_tenant(tenants, row, place)
    }
}
