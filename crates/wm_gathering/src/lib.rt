//! A keeper that gathers: what many events change waits in it, and is kept in one commit.
//!
//! A [`Gathering`] stands over another keeper. What is committed to it waits, at most one change of
//! a number, and it tells the rows as if all of that were made. [`Gathering::flush`] makes it, in one
//! commit of the other keeper.
//!
//! An engine over it (`wm_engine`) so makes its events without a commit for each. Whoever has the
//! engine flushes: after that the rows of the inner keeper are those that were told before (`kept`),
//! which are those of the engine's state, and the keeper tells them still (`rows`), as its type asks
//! for. Where the flush is refused, the state stands and all waits still, while the inner keeper has
//! the rows of the last flush.
#![tactic(auto)]

pub mod gathering;
#[cfg(test)]
mod tests;
mod waiting;

pub use gathering::Gathering;
