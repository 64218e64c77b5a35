//! How a run ends, and what it hands back.
//!
//! [`Status`] says how it ended, with the exit status of the program and its text. [`Ended`] is what a run
//! hands back, and [`NotBegun`] what comes back where no table was begun. `specs/Tells.antt` says what is
//! told of a keeper, a sink and the workers that a run is given.
#![tactic(auto)]

pub mod ended;
mod not_begun;
pub mod status;

pub use ended::Ended;
pub use not_begun::NotBegun;
pub use status::Status;
