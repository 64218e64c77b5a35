//! The calls of the crates that the machine stands on, as a row of a table gives them what they are
//! given and tells what came: data and its merging, conditions, schedules, requests, chains and the
//! stock workers, a module a subject; and how what came is told ([`told`]).
//!
//! The tables of single calls have these, and those of the crates above.
#![tactic(auto)]

pub mod chains;
pub mod conditions;
pub mod data;
pub mod requests;
pub mod schedule;
pub mod told;
pub mod workers;
