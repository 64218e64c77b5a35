//! What a roll has of a run that is out.
use wm_worker::Kind;

/// What a roll has of a run that is out. A roll looks at the run alone.
#[derive(Clone, Copy, Debug, PartialEq, Eq)]
pub struct Part {
    /// The number of the run.
    pub run: u64,
    /// The number of the instance that works on it.
    pub instance: u32,
    /// The kind of that instance.
    pub kind: Kind,
}
