//! The command line and the top call.
//!
//! [`run`] does all that the program does: it reads the words of the command line, then the whole
//! script, then loads the store, and executes the script's commands one after another, driving the
//! workers that it is given. Its contract is the promise of the program, `IsRun` of `specs/Run.antt`.
//! It reads and begins as wm_beginning does. [`open_book`] makes the book of a table that has begun, and
//! [`run_pool`] drives its workers in threads, over a [`Book`](wm_session::Book) behind a lock.
#![tactic(auto)]

mod beginning;
mod desk;
mod pool;
mod program;
mod work;

pub use beginning::open_book;
pub use pool::run_pool;
pub use program::run;
pub use wm_session::{Ended, Status};
