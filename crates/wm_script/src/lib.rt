//! The lines of a script.
//!
//! [`read_lines`] reads the commands of a script's bytes; [`first_line`] cuts one line off, and
//! [`command_of`] reads it. Their definition is `specs/Lines.antt`, with
//! `Limits`, `Batches`, `Requests`, `Works`, `Names`, `Conditions`, `Queries`, `Objects`, `Parts` and
//! `Values`; `Onto` says how a list is read item by item.
#![tactic(auto)]

mod batches;
mod conditions;
pub mod limits;
pub mod lines;
mod names;
mod objects;
mod parts;
mod queries;
mod requests;
mod values;
mod works;

pub use limits::{Limit, MAX_LINE_BYTES, MAX_LINES, MAX_SCRIPT_BYTES, ScriptFault, first_limit};
pub use lines::{command_of, first_line, read_lines};
pub use objects::has_only;
