//! What a line of a session says.
use uuid::Uuid;
use wm_collections::{Items, Text};
use wm_data::Data;
use wm_machine::{Command, End};

/// What is to be met of one work, after `androidx.work.testing.TestDriver`, by the id of the work.
#[derive(Clone, Copy, Debug, PartialEq, Eq)]
pub enum Met {
    /// The delay of a one-time work.
    Delay(Uuid),
    /// The period of a periodic work.
    Period(Uuid),
    /// The constraints of a work.
    Constraints(Uuid),
}

/// What a line of a session says. Where it names a run, the name is any text of 1 to 64 bytes.
#[derive(Debug, Drop)]
pub enum SessionLine {
    /// A command is to be executed. A line that isn't in the grammar, or has a fault, is a faulty one.
    Command(Command),
    /// A run goes on, and may tell its progress.
    Progress { run: Text, progress: Option<Data> },
    /// A run is over, and ended so.
    Report { run: Text, end: End },
    /// Runs are still at work: 1 to 1,000 names, as they were given.
    Beat { runs: Items<Text> },
    /// The session is to start nothing any more, and to be over once no run is out.
    Close,
    /// Something of a work is to be met.
    Met(Met),
    /// When does the state wake?
    Wake,
}
