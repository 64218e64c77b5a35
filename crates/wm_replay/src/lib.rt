//! The slow step: the step of a command and of an event of a run over plain lists, without table,
//! graph, index or ready sets, for whoever checks a log without the engine.
//!
//! [`execute`] gives the one reply to a command in a state, and makes its step. [`replay`] answers
//! whether an event of a run is legal in a state, and where it is makes the step. The events of runs
//! stand in `wm_replay_runs`, and the commands in `wm_replay_commands`, but for the one that
//! enqueues, which stands here. Where memory is refused, the state may be anything.
#![tactic(auto)]

mod checking;
mod clearing;
mod enqueueing;
mod executing;
mod members;
mod naming;
mod placing;
mod replaying;

pub use executing::execute;
pub use replaying::replay;
