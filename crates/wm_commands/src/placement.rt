//! A batch is placed, and other records make way for it.
ghost use Rattle.std.specs.Prelude.{◌≡◌, ◌^◌, ◌≤◌, ◌+◌, true, length, IfOk};
ghost use Rattle.std.specs.List.{AllByRecursion};
ghost use Rattle.wm_settings.specs.Builds.{IsExecuted};
ghost use Rattle.wm_commands.specs.Placed.{name_in, placement_of};
ghost use Rattle.wm_machine.specs.Outcome.{IsLegalLine};
ghost use Rattle.wm_machine.specs.Enqueued.{enqueued, made_ready, placing_in};
ghost use Rattle.wm_changes.specs.Nodes.{is_there};
ghost use Rattle.wm_unique.specs.Plans.{placing_by, AreNumbersOf};

use crate::clearing::{clearing_of, replaced_by_clearing, stopped_by};
use crate::placing::{placed_records, seqs_of};
use std::alloc::{AllocError, Global};
use wm_changes::{Replacement, RunChange, StepChange};
use wm_collections::{Items, Replica, Text, both};
use wm_machine::{Command, Record, Reply, UniqueName};
use wm_request::{Batch, Node};
use wm_settings::event_of;
use wm_steps::View;
use wm_unique::GroupPlan;

/// How a batch is placed, with its memory taken.
#[derive(Drop)]
pub struct Placement {
    /// The records that take the place of others.
    pub replaced: Items<Replacement>,
    /// The numbers of the records that are removed.
    pub removed: Items<u64>,
    /// The new records.
    pub placed: Items<Record>,
    /// The numbers of the runs that are stopped.
    pub stopped: Items<u64>,
}

/// The unique name that works are placed under.
fn name_in(alloc: Global, named: &Option<UniqueName>) -> Result<Option<Text>, AllocError>
    ensures { IfOk result (λ name. name ≡ name_in named.now) }
{
    match named {
        Some(unique) => Ok(Some(unique.name.replica(alloc)?)),
        None => Ok(None),
    }
}

/// How works are placed by a plan.
fn placement_of(
    alloc: Global,
    view: &View,
    named: &Option<UniqueName>,
    plan: GroupPlan,
    works: &[Node],
) -> Result<Placement, AllocError>
    requires room { view.now.next + length works.now ≤ 2 ^ 53 }
    requires let_go { AreNumbersOf view.now.works plan.let_go }
    ensures { IfOk result (λ placement. placement
        ≡ placement_of view.entry.now (name_in named.entry.now) (placing_by plan) works.entry.now) }
{
    let GroupPlan {
        cancel,
        let_go,
        after,
        ..
    } = plan;
    let name = name_in(alloc, named)?;
    let clearing = clearing_of(alloc, view, cancel.as_slice(), let_go)?;
    let placed = placed_records(alloc, view, &clearing, &name, after.as_slice(), works)?;
    let replaced = replaced_by_clearing(alloc, view, &clearing)?;
    let runs = view.state.runs.as_slice();
    let stopped = stopped_by(alloc, runs, &clearing.cancelled)?;
    Ok(Placement {
        replaced,
        removed: clearing.removed.into_items(),
        placed,
        stopped,
    })
}

/// Places the works of a batch that isn't refused, by a plan.
pub fn place(
    alloc: Global,
    view: &View,
    line: u32,
    named: Option<UniqueName>,
    batch: Batch,
    plan: GroupPlan,
) -> Result<StepChange, AllocError>
    requires asked { IsLegalLine view.now (Command.Enqueue named batch) }
    requires room { view.now.next + length batch.works ≤ 2 ^ 53 }
    requires places { enqueued view.now named batch.works
        ≡ placing_in (made_ready view.now (placing_by plan)) (name_in named) plan.after batch.works }
    requires let_go { AreNumbersOf view.now.works plan.let_go }
    requires after { AllByRecursion (λ number. is_there view.now.works number ≡ true) plan.after }
    ensures { IfOk result (IsExecuted view.entry.now line (Command.Enqueue named batch)) }
{
    // what the type of a view keeps is known where a field of it is read
    let _reached = &view.state;
    let placement = placement_of(alloc, view, &named, plan, batch.works().as_slice());
    let ((named, batch), placement) = both((named, batch), placement)?;
    let numbers = seqs_of(alloc, placement.placed.as_slice());
    let ((named, batch, placement), numbers) = both((named, batch, placement), numbers)?;
    let command = Command::Enqueue { named, batch };
    let event = event_of(alloc, line, command, Reply::Enqueued(numbers));
    let (placement, event) = both(placement, event)?;
    let Placement {
        replaced,
        removed,
        placed,
        stopped,
    } = placement;
    let run = RunChange::Stop(stopped);
    Ok(StepChange::placing(alloc, replaced, removed, placed, run, event))
}
