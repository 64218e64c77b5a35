//! Works are cancelled, each with its unfinished descendants: the one with an id, those with a tag
//! or of a unique name, or all.
ghost use Rattle.std.specs.Prelude.{◌≡◌, IfOk, Some};
ghost use Rattle.wm_settings.specs.Builds.{IsExecuted};
ghost use Rattle.wm_machine.specs.Cancelled.{cancelled_each, is_stored, targeted};
ghost use Rattle.wm_machine.specs.Outcome.{outcome};
ghost use Rattle.wm_machine.specs.declared.command.Target.TheVariants as target;

use crate::clearing::{cancelling, replaced_by_clearing, stopped_by};
use std::alloc::{AllocError, Global};
use uuid::Uuid;
use wm_changes::{RunChange, StepChange};
use wm_collections::{Items, both};
use wm_machine::{Command, Record, Refusal, Reply, Target};
use wm_settings::{event_of, replying};
use wm_steps::View;
use wm_unique::unfinished;

/// What a cancel comes to.
pub fn execute(
    alloc: Global,
    view: &View,
    line: u32,
    target: Target,
) -> Result<StepChange, AllocError>
    ensures { IfOk result (IsExecuted view.entry.now line (Command.Cancel target)) }
{
    match target {
        Target::Id(id) => cancel_id(alloc, view, line, id),
        Target::Tag(tag) => cancel_each(alloc, view, line, Target::Tag(tag)),
        Target::Name(name) => cancel_each(alloc, view, line, Target::Name(name)),
        Target::All => cancel_each(alloc, view, line, Target::All),
    }
}

/// What the cancelling of the work with this id comes to.
fn cancel_id(alloc: Global, view: &View, line: u32, id: Uuid) -> Result<StepChange, AllocError>
    ensures { IfOk result (IsExecuted view.entry.now line (Command.Cancel (Target.Id id))) }
{
    if is_stored(view, id) {
        cancel_each(alloc, view, line, Target::Id(id))
    } else {
        let command = Command::Cancel(Target::Id(id));
        let refusal = Refusal::NoSuchWork { id };
        replying(alloc, view, line, command, Reply::Refused(refusal))
    }
}

/// Cancels the unfinished works that a target is for, each with its unfinished descendants, which
/// stops their runs.
fn cancel_each(
    alloc: Global,
    view: &View,
    line: u32,
    target: Target,
) -> Result<StepChange, AllocError>
    requires accepted { outcome view.now (Command.Cancel target)
        ≡ Some (cancelled_each view.now (targeted target view.now.works)) }
    ensures { IfOk result (IsExecuted view.entry.now line (Command.Cancel target)) }
{
    let runs = view.state.runs.as_slice();
    let seqs = targeted(alloc, view, &target)?;
    let cleared = cancelling(alloc, view.state.now, view.descendants_of(seqs.as_slice())?);
    let replaced = replaced_by_clearing(alloc, view, &cleared)?;
    let stopped = stopped_by(alloc, runs, &cleared.cancelled)?;
    let count = replaced.len() as u64;
    let reply = Reply::Cancelled(count);
    let event = event_of(alloc, line, Command::Cancel(target), reply);
    let ((replaced, stopped), event) = both((replaced, stopped), event)?;
    let run = RunChange::Stop(stopped);
    Ok(StepChange::replacing_all(alloc, replaced, run, event))
}

/// The numbers of the unfinished works that a target is for, ascending.
fn targeted(alloc: Global, view: &View, target: &Target) -> Result<Items<u64>, AllocError>
    ensures { IfOk result (λ numbers. numbers ≡ targeted target.entry.now view.entry.now.works) }
{
    let works = view.state.works.as_slice();
    match target {
        Target::Id(id) => match view.number_of(*id) {
            Some(number) => unfinished(alloc, works, &[number]),
            None => Ok(Items::new(alloc)),
        },
        Target::Tag(tag) => unfinished(alloc, works, view.tagged(tag)),
        Target::Name(name) => unfinished(alloc, works, view.members(name)),
        Target::All => all_open(alloc, works),
    }
}

/// The numbers of all unfinished works.
fn all_open(alloc: Global, works: &[Record]) -> Result<Items<u64>, AllocError>
    ensures { IfOk result (λ numbers. numbers ≡ targeted target.All works.now) }
{
    let mut numbers = Items::new(alloc);
    for work in works {
        if work.phase.is_open() {
            numbers.push(work.seq)?;
        }
    }
    Ok(numbers)
}

/// Whether a record has this id.
fn is_stored(view: &View, id: Uuid) -> bool
    ensures { result ≡ is_stored view.now.works id }
{
    view.number_of(id).is_some()
}
