//! What each event of a run comes to: the change of its step, built from a view of the state alone,
//! with all of it in memory.
//!
//! [`claim_first`] builds that of the start of the work that is first, [`next_turn`] that of a run
//! that goes on, [`finish`] that of a run's end, and [`returned`] that of the return of one that was
//! stopped. Nothing here changes a state.
#![tactic(auto)]

pub mod finishing;
mod inputs;
mod reach;
mod reports;
mod returning;
pub mod starting;
mod turning;

pub use finishing::finish;
pub use reports::{counts_in, goes_on, is_stopped, wants_more};
pub use returning::returned;
pub use starting::{Claimed, Claiming, claim_first};
pub use turning::next_turn;
