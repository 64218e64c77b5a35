//! The one spelling of a command as JSON.
//!
//! [`spelled`] writes it, and [`command_in`] reads the command of a value. Their definition is
//! `specs/Commands.antt`, with `Works`, `Faults` and `Names`; [`laws`] says how the two ways belong
//! together. What is asked for in a spelling is what wm_script reads in a line.
#![tactic(auto)]

pub mod commands;
mod faults;
pub mod laws;
mod names;
mod queries;
mod reading;
mod spell;
mod works;

pub use commands::spelled;
pub use reading::command_in;
