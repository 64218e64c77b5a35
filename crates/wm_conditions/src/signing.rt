//! Constraints as numbers.
ghost use Rattle.std.specs.Prelude.{◌≡◌, ◌≤◌};
ghost use Rattle.wm_conditions.specs.Signatures.{constraints_of, network_at, place_of, signature};

use crate::conditions::{Constraints, Network};

/// The number of constraints: sixteen times the place of their network in its list, and a bit for
/// each other constraint that is set. It is one of 0 to 79, and no two constraints have the same.
pub fn signature(constraints: &Constraints) -> u8
    ensures number { result ≡ signature constraints.now }
    ensures range { result ≤ 79 }
{
    place_of(constraints.network) * 16
        + u8::from(constraints.charging) * 8
        + u8::from(constraints.idle) * 4
        + u8::from(constraints.battery_not_low) * 2
        + u8::from(constraints.storage_not_low)
}

/// The place of a network in its list.
fn place_of(network: Network) -> u8
    ensures place { result ≡ place_of network }
    ensures range { result ≤ 4 }
{
    match network {
        Network::NotRequired => 0,
        Network::Connected => 1,
        Network::Unmetered => 2,
        Network::NotRoaming => 3,
        Network::Metered => 4,
    }
}

/// The constraints that have a number, which is one of 0 to 79. It takes no memory.
pub fn constraints_of(number: u8) -> Constraints
    ensures { result ≡ constraints_of number }
{
    Constraints {
        network: network_at(number / 16),
        charging: number / 8 % 2 == 1,
        idle: number / 4 % 2 == 1,
        battery_not_low: number / 2 % 2 == 1,
        storage_not_low: number % 2 == 1,
    }
}

/// The network at a place of its list.
fn network_at(place: u8) -> Network
    ensures { result ≡ network_at place }
{
    match place {
        0 => Network::NotRequired,
        1 => Network::Connected,
        2 => Network::Unmetered,
        3 => Network::NotRoaming,
        _ => Network::Metered,
    }
}
