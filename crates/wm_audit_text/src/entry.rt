//! What the line of an event tells.

use wm_machine::{Command, Event};

/// What the line of an event tells.
#[derive(Debug, Drop)]
pub enum Entry {
    /// A line of a script was executed. What was replied isn't told.
    Command { line: u32, command: Command },
    /// Another event.
    Run(Event),
}
