//! The program `callers`: callers that call the lines of a script, each in a thread of its own.
//!
//! [`run_callers`] does all that the program does with that first word: it reads the words after it, then
//! the whole script, then loads the store, and deals the script's lines to the callers of a desk, each of
//! which calls its own in order. Once the desk is closed it drains the table, and writes the text of the
//! log. Its contract is the promise of the program, `IsCallersRun` of `specs/Run.antt`.
//! `specs/Lines.antt` says which lines each caller has, `specs/Calls.antt` what the log has of them, and
//! `specs/Ended.antt` what is so in the end.
#![tactic(auto)]

mod caller;
mod calling;
mod draining;
mod ending;
mod line;
mod program;
mod serving;
mod texts;
mod top;

pub use program::CallersEnd;
pub use top::run_callers;
