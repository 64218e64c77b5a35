//! What a check answers.
use wm_machine::State;

/// What is found of the bytes of an audit.
#[derive(Debug, Drop)]
pub enum Verdict {
    /// They are the audit of a run, which ended in this state.
    Sound { last: State },
    /// The line of this number, counted from 1, is the first that isn't right in its place, or that is
    /// missing.
    WrongLine { line: u64 },
    /// Every line is right, and the text differs from that of the events first at this byte, counted
    /// from 0. The end of the shorter one counts as a difference.
    WrongText { at: u64 },
}
