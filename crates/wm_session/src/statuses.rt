//! How a session ends, by what it stopped for or how its last write was answered.
ghost use Rattle.wm_session.specs.Causes.{EndsBy};

use crate::book::Stop;
use wm_ended::Status;
use wm_io::WriteFault;

impl From<Stop> for Status {
    ghost use Rattle.std.specs.Prelude.{◌≡◌};
    ghost use Rattle.wm_session.specs.Causes.{status_by_stop};

    ghost from_gives = { λ stop status. status ≡ status_by_stop stop };

    fn from(stop: Stop) -> Status {
        match stop {
            Stop::KeeperFault => Status::KeeperFault,
            Stop::SinkFault => Status::SinkFault,
            Stop::Memory => Status::Memory,
        }
    }
}

/// How a session ends that stopped for this, or whose last write was answered so.
pub(crate) fn status_after(stop: Option<Stop>, written: Result<(), WriteFault>) -> Status
    ensures { EndsBy stop written result }
{
    match (stop, written) {
        (Some(stop), _) => Status::from(stop),
        (None, Err(fault)) => Status::from(Stop::from(fault)),
        (None, Ok(())) => Status::Done,
    }
}
