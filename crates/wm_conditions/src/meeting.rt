//! Whether conditions meet constraints.
ghost use Rattle.std.specs.Prelude.{◌≡◌};
ghost use Rattle.wm_conditions.specs.Met.{met, network_met};

use crate::conditions::{Conditions, Constraints, Network};

/// Whether the conditions meet all constraints that are set: a network that is needed is there and
/// of its kind, charging and idle hold where they are asked for, and a low battery or storage
/// doesn't hold where it mustn't. It takes no memory. After the guide's page "Define work
/// requests", "Work constraints".
#[tactic(auto, unfolding(crate::specs::Met::met))]
pub fn met(constraints: &Constraints, conditions: &Conditions) -> bool
    ensures { result ≡ met constraints.now conditions.now }
{
    network_met(constraints.network, conditions)
        && (!constraints.charging || conditions.charging)
        && (!constraints.idle || conditions.idle)
        && (!constraints.battery_not_low || !conditions.battery_low)
        && (!constraints.storage_not_low || !conditions.storage_low)
}

/// Whether the network that is needed is there.
fn network_met(network: Network, conditions: &Conditions) -> bool
    ensures { result ≡ network_met network conditions.now }
{
    match network {
        Network::NotRequired => true,
        Network::Connected => conditions.connected,
        Network::Unmetered => conditions.connected && !conditions.metered,
        Network::NotRoaming => conditions.connected && !conditions.roaming,
        Network::Metered => conditions.connected && conditions.metered,
    }
}
