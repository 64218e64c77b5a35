//! What a call leaves in the history of a desk.
use wm_machine::{Command, Reply};

/// A command, by whom and for which line it was given, and what was answered. No value of it is
/// made: contracts see the history of a desk as a list of these.
pub struct Signed {
    pub caller: u32,
    pub line: u32,
    pub command: Command,
    pub reply: Reply,
}
