//! The state machine: its types, and in `specs/` its definitions.
//!
//! A [`State`] holds the records of all works and what they run under. An [`Event`] is one change
//! of it. The definitions say what holds of every state, which events are legal in a state and which
//! state they give, what a log of events gives, and which rows are kept for a state. They follow the
//! rules of WorkManager as `docs/DEFINITIONS.md` restates them; [`laws`] says what follows from them.
#![tactic(auto)]

pub mod command;
pub mod event;
pub mod instances;
pub mod laws;
pub mod numbers;
pub mod record;
pub mod reply;
pub mod state;

pub use command::{Command, LineFault, Policy, Target, UniqueName};
pub use event::{Cause, End, Event};
pub use instances::{has_room, idle_in, is_idle, is_live};
pub use numbers::{NUMBERS_END, index_numbered, work_numbered};
pub use record::{How, Phase, Record, Shown};
pub use reply::{Applied, Counts, Refusal, Reply, WorkInfo};
pub use state::{Instance, Run, State, WorkQuery};
pub use wm_worker::Kind;
