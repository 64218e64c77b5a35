//! The opening of a store: what state its rows open to, and which rows change by that.
//!
//! wm_machine's `specs/Opened.antt` says what rows open to. [`open`] computes it, with the view of that
//! state and the changes of the rows that differ from its own; [`laws`] says what follows of opening.
#![tactic(auto)]

pub mod laws;
mod nodes;
pub mod opening;
mod running;

pub use opening::{Opening, open, opening_state};
