//! The bench: where boxed workers wait between their runs.
//!
//! A [`Bench`] holds the instances that a run was given, each at a place with its number. A
//! worker that is wanted is taken out with a [`Seated`], driven there, and given back. So each is
//! in one place: on the bench, or out with a seat.
//!
//! The types have a parameter for the workers, which are boxed where nothing else is said.
#![tactic(auto)]

pub mod bench;
pub mod hand;
pub mod place;
pub mod seat;

pub use bench::Bench;
pub use hand::Hand;
pub use place::{Place, Presence};
pub use seat::Seated;
