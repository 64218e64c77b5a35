//! Conditions that meet constraints.
ghost use Rattle.std.specs.Prelude.{◌≡◌};
ghost use Rattle.wm_asks.specs.Meet.{meet, metered_for, roaming_for, wants_network};

use wm_conditions::{Conditions, Constraints, Network};

/// The conditions, changed where the constraints ask for it, so that they meet them. It takes no memory.
pub fn meet(constraints: &Constraints, conditions: &Conditions) -> Conditions
    ensures { result ≡ meet constraints.now conditions.now }
{
    let network = constraints.network;
    Conditions {
        connected: wants_network(network) || conditions.connected,
        metered: metered_for(network, conditions.metered),
        roaming: roaming_for(network, conditions.roaming),
        charging: constraints.charging || conditions.charging,
        idle: constraints.idle || conditions.idle,
        battery_low: conditions.battery_low && !constraints.battery_not_low,
        storage_low: conditions.storage_low && !constraints.storage_not_low,
    }
}

/// Whether a network is needed.
fn wants_network(network: Network) -> bool
    ensures { result ≡ wants_network network }
{
    !matches!(network, Network::NotRequired)
}

/// Whether the network that is needed is to be metered, where it was or wasn't.
fn metered_for(network: Network, metered: bool) -> bool
    ensures { result ≡ metered_for network metered }
{
    match network {
        Network::Unmetered => false,
        Network::Metered => true,
        _ => metered,
    }
}

/// Whether it is to be roaming, where it was or wasn't.
fn roaming_for(network: Network, roaming: bool) -> bool
    ensures { result ≡ roaming_for network roaming }
{
    match network {
        Network::NotRoaming => false,
        _ => roaming,
    }
}
