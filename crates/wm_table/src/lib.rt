//! The table of works and runs.
//!
//! [`Table`] makes the events of the machine, one a call, keeps their rows, and logs them.
#![tactic(auto)]

pub mod laws;
pub mod table;

pub use table::{Table, TableEnd};
pub use wm_engine::{BeginFault, Claim, Mark, Ticket, Trouble, TurnAnswer};
