//! The work of a unique name is updated, where its policy says so.
ghost use Rattle.std.specs.Prelude.{◌≡◌, None, Some, IfOk, IsSome};
ghost use Rattle.wm_collections.specs.Lists.{AllLater};
ghost use Rattle.wm_machine.specs.Enqueued.{enqueued, plan_in};
ghost use Rattle.wm_machine.specs.Input.{work_numbered};
ghost use Rattle.wm_machine.specs.Plan.{first_of_batch};
ghost use Rattle.wm_machine.specs.Valid.{IsBefore, Valid};
ghost use Rattle.wm_replay.specs.Planned.{kind_refused_in, IsReplyOfUpdate};
ghost use Rattle.wm_unique.specs.Plans.{plan_fields};

use std::alloc::{AllocError, Global};
use wm_collections::at;
use wm_machine::{Record, Reply, State, UniqueName, work_numbered};
use wm_replay_commands::updating::{changed_reply, update_work};
use wm_request::{Batch, Node};

/// Updates the member of this number by the first work of a batch, which is its only one.
pub fn update_member(
    alloc: Global,
    state: &mut State,
    unique: &UniqueName,
    batch: &Batch,
    number: u64,
) -> Result<Reply, AllocError>
    requires valid { Valid state.old }
    requires planned { (plan_fields (plan_in state.old unique.now)).update ≡ Some number }
    requires fits { kind_refused_in state.old unique.now batch.now.works ≡ None }
    ensures { IfOk result (λ reply. enqueued state.old (Some unique.entry.now) batch.entry.now.works ≡ record {
      reply = reply;
      state = state.new;
    }) }
{
    let node = first_node(batch);
    let reply = member_reply(state.works.as_slice(), number);
    update_work(alloc, state, number, &node.request)?;
    Ok(reply)
}

/// The reply to an update of the work of this number, which is there.
fn member_reply(works: &[Record], number: u64) -> Reply
    requires in_order { AllLater IsBefore works.now }
    requires there { IsSome (work_numbered number works.now) }
    ensures { IsReplyOfUpdate (work_numbered number works.entry.now) result }
{
    match work_numbered(works, number) {
        Some(member) => changed_reply(member),
        None => unreachable!(),
    }
}

/// The first work of a batch.
fn first_node(batch: &Batch) -> &Node
    ensures { first_of_batch batch.now.works ≡ Some result.now }
{
    at(batch.works().as_slice(), 0)
}
