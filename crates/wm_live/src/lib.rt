//! The test driver: a table driven one ask after another.
//!
//! [`Live`] is a table beside a bench in a quiet state. [`Live::ask`] makes what an [`Ask`](wm_asks::Ask)
//! comes to, and drives all that is startable to its end, until nothing is left to do. [`drain`] does the
//! second alone, for any table without runs ([`Stand`]), and [`drain_at`] passes a gate before each turn.
//! `specs/Live.antt` says what an answer and an end mean, `specs/Drained.antt` what a drain does to a table
//! and its text; what each ask comes to is in `wm_asks`.
#![tactic(auto)]

mod asked;
pub mod drive;
pub mod live;
pub mod stand;

pub use drive::{drain, drain_at};
pub use live::{Live, LiveEnd};
pub use stand::Stand;
