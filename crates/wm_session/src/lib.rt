//! A session: the book that a script is executed in, and the serial run.
//!
//! [`Book`] holds a [`Table`](wm_table::Table) with the bench of workers, the lines that are left and
//! what is still to be written. Its type keeps what the promises of a run rest on, of what the run
//! was given, for which its [`Mark`](wm_table::Mark) stands. [`run_serial`] executes the lines one
//! after another, and after each of them drives all that may start. [`Ended`] is what a run hands
//! back, with the [`Status`] that it ended with.
#![tactic(auto)]

pub mod book;
mod pending;
pub mod serial;
mod signals;
mod statuses;

pub use book::{After, Book, Front, Job, Over, Stop};
pub use serial::run_serial;
pub use wm_ended::{Ended, Status};
