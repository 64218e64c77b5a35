//! The command that enqueues works.
ghost use Rattle.std.specs.Prelude.{◌≡◌, IfOk};
ghost use Rattle.wm_machine.specs.Enqueued.{enqueued};
ghost use Rattle.wm_machine.specs.Valid.{Valid};

use crate::checking::check_and_place;
use crate::naming::enqueue_named;
use std::alloc::{AllocError, Global};
use wm_machine::{Reply, State, UniqueName};
use wm_request::Batch;
use wm_unique::GroupPlan;

/// The command that enqueues a batch, under a unique name or none, which gives the numbers of its
/// works, or tells that others are kept, or what the update of another one did.
pub fn enqueue(
    alloc: Global,
    state: &mut State,
    named: &Option<UniqueName>,
    batch: &Batch,
) -> Result<Reply, AllocError>
    requires valid { Valid state.old }
    ensures { IfOk result (λ reply. enqueued state.old named.entry.now batch.entry.now.works ≡ record {
      reply = reply;
      state = state.new;
    }) }
{
    match named {
        Some(unique) => enqueue_named(alloc, state, named, unique, batch),
        None => {
            let plan = GroupPlan::free(alloc);
            check_and_place(alloc, state, named, batch, &plan)
        }
    }
}
