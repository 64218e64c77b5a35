//! The slow step: each event of a run over plain lists, without table, graph, index or ready sets,
//! for whoever checks a log without the engine. The events of commands are those of
//! `wm_replay_commands`.
//!
//! There is a function for each kind of event. It answers whether the event is legal in a state, and
//! where it is makes the step. Where memory is refused the state may be anything.
#![tactic(auto)]

pub mod changing;
pub mod closing;
mod ending;
mod finishing;
mod giving;
mod inputs;
mod returning;
mod run_changes;
mod starting;
mod turning;
pub mod work_changes;

pub use finishing::{finish, timed_out};
pub use returning::late;
pub use starting::{start, start_failed};
pub use turning::turn;
