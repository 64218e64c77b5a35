//! What is told of a work.
ghost use Rattle.std.specs.Prelude.{◌≡◌, IfOk};
ghost use Rattle.wm_machine.specs.Shown.{due_shown, info_in};
ghost use Rattle.wm_machine.specs.Valid.{IsRecord};

use std::alloc::{AllocError, Global};
use wm_collections::Replica;
use wm_machine::{Record, Shown, WorkInfo};

/// When a work in this shown state is due, where that is told.
fn due_shown(state: Shown, work: &Record) -> Option<u64>
    requires record { IsRecord work.now }
    ensures { result ≡ due_shown state work.now }
{
    match state {
        Shown::Enqueued => Some(work.due()),
        _ => None,
    }
}

/// What is told of a work in this shown state. Memory that is refused is the only error.
pub fn info(alloc: Global, work: &Record, state: Shown) -> Result<WorkInfo, AllocError>
    requires record { IsRecord work.now }
    ensures { IfOk result (λ info. info ≡ info_in work.entry.now state) }
{
    Ok(WorkInfo {
        seq: work.seq,
        id: work.request.id(),
        name: work.name.replica(alloc)?,
        state,
        attempt: work.attempt,
        due: due_shown(state, work),
        generation: work.generation,
        output: work.output.replica(alloc)?,
        progress: work.progress.replica(alloc)?,
        tags: work.request.tags().replica(alloc)?,
    })
}
