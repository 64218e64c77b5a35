//! Which constraints a change of the conditions makes a difference for.
use crate::conditions::Conditions;
use crate::tracker::{Changed, Tracker};
use std::test::Fail;

/// A network is there, and no other condition holds.
const CONNECTED: Conditions = Conditions {
    connected: true,
    ..Conditions::OPENING
};

/// The bits 0 to 3, which are those of constraints on battery and storage alone.
const LOW: u128 = 1 | 1 << 1 | 1 << 2 | 1 << 3;

#[test]
fn tracker_of_connected(rt: HostRuntime) -> Result<(), Fail> {
    let mut tracker = Tracker::new(Conditions::OPENING);
    let changed = tracker.update(CONNECTED);
    let met = tracker.met();
    let rose = LOW << 16 | LOW << 32 | LOW << 48;
    assert_eq!(rt; changed, Changed { rose, fell: 0 });
    assert_eq!(rt; met, LOW | rose);
    Ok(())
}
