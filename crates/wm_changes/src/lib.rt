//! What a step of the machine is about to do: the change of its records, its runs and its moment, and
//! its event, with all of it in memory. And how such a change is made in the lists of a state, which
//! takes no memory once there is room.
//!
//! A [`StepChange`] is made by the crates that say what each event comes to, and made in a state with
//! all that is kept beside it by `wm_steps`.
#![tactic(auto)]

pub mod change;
pub mod lists;

pub use change::{Replacement, RunChange, SettingChange, StepChange};
