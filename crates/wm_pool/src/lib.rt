//! Threads that take works and turn them, and one in front that leads.
//!
//! A [`Shared`] is what the threads of a pool share: it gives works, has them turned and leads.
//! [`drive`] runs one, with a thread for each share of its ledger, until all have stopped. Then the
//! shares tell that every work that was given was spent, and that each thread stopped where it was
//! told that no further work comes. At a [`Gate`] a test can hold a thread before its next step;
//! [`OpenGate`] holds none.
#![tactic(auto)]

pub mod driving;
pub mod gate;
pub mod shared;
#[cfg(test)]
mod tests;

pub use driving::drive;
pub use gate::{Gate, OpenGate, Point};
pub use shared::Shared;
