//! Callers: several threads of a program give commands to one table, and get receipts.
//!
//! A [`Desk`] has a table and the bench beside it under one lock, and gives each caller a [`Pass`].
//! A call is one event of the table, and its [`Receipt`] tells its place among all calls. A pass knows
//! which calls its caller has seen, and of these its own. Once all passes have come back, the desk is
//! closed and hands table and bench back, with the caller of each command of the log. Until then no
//! run begins.
//!
//! Desk and passes are seats at a table of `atomic_table` with one word, which counts the calls.
//! `specs/Rule.antt` has the rule of these seats, `specs/Calls.antt` what a call does to a pass, and
//! `specs/Closing.antt` what is known in the end.
#![tactic(auto)]

pub mod desk;
pub mod entry;
mod held;
mod kinds;
pub mod mark;
pub mod opening;
pub mod pass;
mod steps;
mod tally;
mod view;

pub use desk::{Desk, DeskEnd};
pub use entry::Signed;
pub use mark::DeskMark;
pub use opening::Opening;
pub use pass::{Pass, Receipt};
