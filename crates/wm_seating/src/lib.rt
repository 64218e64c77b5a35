//! A table beside a bench, for whoever drives works: what is done to both at once.
//!
//! [`execute`] executes a line, and retires on the bench a class that the line retires, which
//! [`retire_last`] does for whoever executed it. [`give_back`] puts a ticket and its worker back
//! without an event. [`pass_turn`] passes the gate before a turn of a run, and [`turn`] has its worker
//! take it. `specs/Bench.antt` says how a bench agrees with the instances of a state, and
//! `specs/Hands.antt` which instances workers are; `proofs/` has what keeps the two together.
#![tactic(auto)]

pub mod steps;
pub mod turning;

pub use steps::{execute, give_back, retire_last};
pub use turning::{pass_turn, turn};
