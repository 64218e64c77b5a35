//! Why a call of a keeper ended early, and which refusals are counted.
ghost use Rattle.std.specs.Prelude.{◌≡◌, IfOk, Ok};
ghost use Rattle.wm_keeper.specs.Keeper.{KeepCause};
ghost use Rattle.wm_sqlite.specs.Refusals.{answer_of};

use sqlite::{Error, ErrorCode};
use wm_faults::FaultCount;
use wm_keeper::KeepFault;

/// Why a call of a keeper ended early.
#[derive(Clone, Copy)]
pub(crate) enum Refusal {
    /// The store refused a statement or a column, or its table has another form.
    Store,
    /// Memory was refused.
    Memory,
}

impl From<Error> for Refusal {
    ghost use Rattle.std.specs.Prelude.{◌≡◌};
    ghost use Rattle.wm_sqlite.specs.Refusals.{refusal_of};

    ghost from_gives = { λ error refusal. refusal ≡ refusal_of error };

    fn from(error: Error) -> Refusal {
        match error {
            Error::SqliteFailure(ErrorCode::OutOfMemory) => Refusal::Memory,
            _ => Refusal::Store,
        }
    }
}

/// The same outcome, with the cause that a keeper tells apart.
pub(crate) fn refused<T>(outcome: Result<T, Error>) -> Result<T, Refusal>
    ensures { IfOk result (λ value. outcome ≡ Ok value) }
{
    Ok(outcome?)
}

/// What a keeper answers. A refusal by the store is a fault, and is counted.
pub(crate) fn counted<T>(
    faults: &mut FaultCount,
    outcome: Result<T, Refusal>,
) -> Result<T, KeepFault>
    ensures answer { result ≡ answer_of outcome }
    ensures cause { KeepCause result faults.old faults.new }
{
    match outcome {
        Ok(value) => Ok(value),
        Err(Refusal::Memory) => Err(KeepFault::Memory),
        Err(Refusal::Store) => {
            faults.raise();
            Err(KeepFault::Failed)
        }
    }
}
