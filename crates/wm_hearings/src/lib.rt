//! The hearings of a session: what a session is, what it does with what it hears, and what follows.
//!
//! A [`Hearing`] is what comes next, with its moment, as a [`Feed`] tells it: a line, that nothing came, or
//! that nothing more comes. `specs/Hears.antt` says point by point what a session does in one hearing, as
//! `specs/Moments.antt`, `Runs.antt`, `Lines.antt`, `Leases.antt` and `Starts.antt` define the points; a
//! session itself is in `specs/Session.antt`. [`laws`] has what holds of every list of hearings.
//!
//! All of this is this project's own.
#![tactic(auto)]

pub mod feed;
pub mod hearing;
pub mod laws;
mod moments;
#[cfg(test)]
mod tests;

pub use feed::{Feed, ListFeed};
pub use hearing::{Came, Heard, Hearing, Stage, Terms};
pub use moments::{end_after, has_overslept, lesser, moment_of};
