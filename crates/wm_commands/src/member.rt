//! The work of a unique name is updated, where its policy says so.
ghost use Rattle.std.specs.Prelude.{◌≡◌, ◌<◌, ◌≤◌, length, slice_get, Some, None, IfOk, IsSomeAnd};
ghost use Rattle.wm_settings.specs.Builds.{IsExecuted};
ghost use Rattle.wm_commands.specs.Planned.{kind_refused_in};
ghost use Rattle.wm_machine.specs.Outcome.{IsLegalLine};
ghost use Rattle.wm_machine.specs.Enqueued.{plan_in};
ghost use Rattle.wm_machine.specs.Input.{work_numbered};
ghost use Rattle.wm_machine.specs.Plan.{first_of_batch};
ghost use Rattle.wm_unique.specs.Plans.{plan_fields};

use crate::update::update_of;
use std::alloc::{AllocError, Global};
use wm_changes::StepChange;
use wm_collections::{Replica, at, both};
use wm_machine::{Command, UniqueName};
use wm_request::{Batch, Node, Request};
use wm_steps::View;

/// Updates the member of this number by the first work of a batch, which is its only one.
pub fn update_member(
    alloc: Global,
    view: &View,
    line: u32,
    unique: UniqueName,
    batch: Batch,
    number: u64,
) -> Result<StepChange, AllocError>
    requires asked { IsLegalLine view.now (Command.Enqueue (Some unique) batch) }
    requires planned { (plan_fields (plan_in view.now unique)).update ≡ Some number }
    requires fits { kind_refused_in view.now unique batch.works ≡ None }
    ensures { IfOk result (IsExecuted view.entry.now line (Command.Enqueue (Some unique) batch)) }
{
    let index = member_index(view, &unique, number);
    // what the type of a view keeps is known where a field of it is read
    let _reached = &view.state;
    let work = view.work_at(index);
    let request = first_request(alloc, batch.works().as_slice());
    let ((unique, batch), request) = both((unique, batch), request)?;
    let named = Some(unique);
    let command = Command::Enqueue { named, batch };
    update_of(alloc, line, command, index, work, request)
}

/// The index of the member that is updated.
fn member_index(view: &View, unique: &UniqueName, number: u64) -> usize
    requires planned { (plan_fields (plan_in view.now unique.now)).update ≡ Some number }
    ensures within { result < length view.entry.now.works }
    ensures found { work_numbered number view.entry.now.works ≡ slice_get view.entry.now.works result }
{
    let _reached = &view.state;
    match view.place_of(number) {
        Some(index) => index,
        None => unreachable!(),
    }
}

/// What the first work of a batch asks for.
fn first_request(alloc: Global, nodes: &[Node]) -> Result<Request, AllocError>
    requires { 1 ≤ length nodes.now }
    ensures { IfOk result (λ request. IsSomeAnd (first_of_batch nodes.now) (λ node. request ≡ node.request)) }
{
    let node = at(nodes, 0);
    node.request.replica(alloc)
}
