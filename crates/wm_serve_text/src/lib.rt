//! The lines of a session: what its workers write to it, and what it writes to them.
//!
//! [`line_of`] reads a line as a [`SessionLine`]: a command of a script, a report on a run, that some runs
//! are still at work, that the session is to close, or an ask of a test driver. `specs/Lines.antt` says
//! which line is what. A run is called by its name, which has the number of the session and its own
//! ([`run_name`], `specs/Names.antt`), so that what was said of a run of another session is never taken
//! for one of this. `specs/Answers.antt` and `specs/RunTexts.antt` have what is written.
//!
//! All of this is this project's own.
#![tactic(auto)]

mod answers;
mod lines;
mod names;
mod parts;
mod reading;
mod run_texts;

pub use answers::{RunReply, beat_text, closed_text, closing_text, run_reply_text};
pub use lines::{Met, SessionLine};
pub use names::{run_name, run_named};
pub use reading::line_of;
pub use run_texts::{expired_text, failed_start_text, start_text, stop_text};
