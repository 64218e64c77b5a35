//! The audit of an exported log: whether a text is that of a run that the machine allows, checked
//! without the engine.
//!
//! [`export`] writes the text of wm_audit_text for a run's first state, its log and what was written
//! for it. [`check`] reads such a text, a line after another, makes each step by the slow step of
//! wm_replay, and gives a [`Verdict`]: the text is sound, or which line is the first that isn't right,
//! or from where on the text that was written isn't that of the events. `specs/Places.antt` says when a
//! line is right, and `specs/Verdicts.antt` what the verdicts mean; [`laws`] says that an audit is sound
//! exactly where it is one of a run.
#![tactic(auto)]

mod checking;
mod comparing;
mod exporting;
mod happening;
pub mod laws;
mod opening;
mod pairing;
mod place;
mod rows;
mod seen;
mod telling;
pub mod verdict;

pub use checking::check;
pub use exporting::export;
pub use verdict::Verdict;
