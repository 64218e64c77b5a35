//! The constraints of a work, the conditions of the device, when the ones meet the others, and which
//! constraints are met at a time.
//!
//! After `androidx.work.Constraints` and the guide's page "Define work requests", "Work
//! constraints".
#![tactic(auto)]

pub mod conditions;
mod meeting;
mod signing;
#[cfg(test)]
mod tests;
pub mod tracker;

pub use conditions::{Conditions, Constraints, Network};
pub use meeting::met;
pub use signing::{constraints_of, signature};
pub use tracker::{Changed, Tracker};
