//! What a thread passes before its next step.

/// The step before which a thread stands at a gate.
#[derive(Clone, Copy, Debug, PartialEq, Eq)]
pub enum Point {
    /// Before the line of this number is executed.
    Front {
        /// The number of the line, from 1.
        line: u32,
    },
    /// Before a turn of a run.
    Turn {
        /// The number of the run.
        run: u64,
        /// The number of its work.
        seq: u64,
        /// The number of the turn, from 0.
        k: u32,
    },
}

/// What a thread passes before its next step, while it holds no lock. Nothing is said of what it
/// does, and it may take as long as it likes: a test holds a thread at one point until another one
/// has come to another.
pub trait Gate {
    /// Returns once the thread may take the step at this point.
    fn at(&self, point: Point);
}

/// A gate that holds no thread.
#[derive(Clone, Copy, Debug)]
pub struct OpenGate;

impl Gate for OpenGate {
    fn at(&self, _point: Point) {}
}
