//! Asks, and their answers.
use uuid::Uuid;
use wm_machine::{Command, Reply, Shown};

/// What is asked of a test driver.
#[derive(Debug, Drop)]
pub enum Ask {
    /// A line's command is to be executed.
    Line(Command),
    /// The delay of a one-time work is to be met.
    DelayMet(Uuid),
    /// The period of a periodic work is to be met.
    PeriodMet(Uuid),
    /// The constraints of a work are to be met.
    ConstraintsMet(Uuid),
    /// The moment is to be the clock's.
    Tick,
    /// When does the state wake?
    Wake,
}

/// Why an ask that something of a work be met is refused, with the value that shows it.
#[derive(Clone, Copy, Debug, PartialEq, Eq)]
pub enum LiveRefusal {
    NoSuchWork { id: Uuid },
    KindMismatch { id: Uuid },
    NotWaiting { id: Uuid, state: Shown },
    NeverDue { id: Uuid, due: u64 },
}

/// What is answered to an ask.
#[derive(Debug, Drop)]
pub enum LiveReply {
    /// Its command was executed, with this reply.
    Did(Reply),
    /// The clock was read, and its moment isn't above the present one.
    Ticked,
    /// The moment at which the state wakes, where it does.
    Wake(Option<u64>),
    Refused(LiveRefusal),
}
