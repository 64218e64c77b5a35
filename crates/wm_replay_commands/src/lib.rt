//! The slow step of commands: what each comes to over plain lists, without table, graph, index or
//! ready sets, for whoever checks a log without the engine. The events of runs are those of
//! `wm_replay_runs`.
//!
//! There is a function for each command. It gives the one reply to the command in a state, and makes
//! the state the one after it. Memory that is refused is the only error: then the state may be
//! anything.
#![tactic(auto)]

mod cancelling;
pub mod closing_each;
mod conditions;
mod counts;
pub mod pruning;
mod retiring;
mod setting;
mod telling;
pub mod updating;

pub use cancelling::cancel;
pub use conditions::set_conditions;
pub use pruning::prune;
pub use retiring::retire;
pub use setting::{faulty, hush, moment, settle, summary};
pub use telling::{observe, query};
pub use updating::update;
