//! What an observer is told, and what was told before and is told after.
use wm_machine::WorkInfo;

/// What an observer is told of a work.
#[derive(Debug, Drop)]
pub enum Note {
    /// This is told of it now.
    Info { observer: u32, info: WorkInfo },
    /// The work of this number isn't there any more.
    Gone { observer: u32, seq: u64 },
}

/// What is told of one work before an event and after it; none where it isn't there.
#[derive(Debug, Drop)]
pub struct Pair {
    pub before: Option<WorkInfo>,
    pub after: Option<WorkInfo>,
}
