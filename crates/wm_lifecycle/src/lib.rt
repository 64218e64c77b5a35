//! How a record changes where a run of its work begins, ends, is stopped, or can't begin, where it is
//! closed, where nothing holds it back any more, and where it is asked for anew: one record each, for
//! one-time and periodic work. And how the runs and the instances of a state change.
//!
//! After the guide's pages "Work states", "Define work requests" (retry and backoff, periodic work)
//! and "Chaining work". Which records a failure or a success reaches is no matter of one record.
#![tactic(auto)]

mod changes;
mod instances;
mod runs;

pub use changes::{
    closed, ended, freed, next_moment, not_started, one_update_more, started, stopped, timed_out,
    updated,
};
pub use instances::{retire_each, set_out};
pub use runs::{remove_run, renew_run, run_on, stop_runs, turn_run};
