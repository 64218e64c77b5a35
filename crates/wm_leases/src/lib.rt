//! The leases of the runs that are out.
//!
//! A run is lent to whoever is at work on it: its [`Lease`] ends at a moment, unless it begins anew before.
//! [`Leases`] finds one by the number of its run, and those that are over by the order of their ends, so
//! that no call looks at a lease that isn't asked for. `specs/Leases.antt` says what a list of leases is.
#![tactic(auto)]

mod ends;
pub mod leases;
mod terms;

pub use leases::{Lease, Leases};
