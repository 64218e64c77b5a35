//! The finished works that no unfinished one needs are removed, once they have been kept for as long as
//! was asked.
ghost use Rattle.std.specs.Prelude.{◌≡◌, true, filter, IfOk};
ghost use Rattle.wm_settings.specs.Builds.{IsExecuted};
ghost use Rattle.wm_machine.specs.Group.{numbers_in};
ghost use Rattle.wm_machine.specs.Pruned.{is_needed, prunable, removable};
ghost use Rattle.wm_changes.specs.Nodes.{is_there};

use crate::clearing::is_needed_then;
use std::alloc::{AllocError, Global};
use wm_changes::StepChange;
use wm_collections::{Items, both};
use wm_graph::Numbers;
use wm_machine::{Command, Record, Reply};
use wm_settings::event_of;
use wm_steps::View;

/// What a prune comes to.
pub fn execute(alloc: Global, view: &View, line: u32, force: bool) -> Result<StepChange, AllocError>
    ensures { IfOk result (IsExecuted view.entry.now line (Command.Prune force)) }
{
    // what the type of a view keeps is known where a field of it is read
    let _reached = &view.state;
    let removed = prunable_numbers(alloc, view, force)?;
    let count = removed.len() as u64;
    let event = event_of(alloc, line, Command::Prune { force }, Reply::Pruned(count));
    let (removed, event) = both(removed, event)?;
    Ok(StepChange::removing(alloc, removed, event))
}

/// The numbers of the records that are removed, ascending.
fn prunable_numbers(alloc: Global, view: &View, force: bool) -> Result<Items<u64>, AllocError>
    ensures { IfOk result (λ numbers. numbers
        ≡ numbers_in (filter (prunable view.entry.now force) view.entry.now.works)) }
{
    let works = view.state.works.as_slice();
    let mut numbers = Items::new(alloc);
    for work in works {
        if is_prunable(alloc, view, force, work)? {
            numbers.push(work.seq)?;
        }
    }
    Ok(numbers)
}

/// Whether a record, which is there, is removed: it may be, and its keeping time has passed. By force
/// that time isn't looked at.
#[tactic(auto, unfolding(wm_machine::specs::Pruned::prunable))]
fn is_prunable(alloc: Global, view: &View, force: bool, work: &Record) -> Result<bool, AllocError>
    requires { is_there view.now.works work.now.seq ≡ true }
    ensures { IfOk result (λ may. may ≡ prunable view.entry.now force work.entry.now) }
{
    if is_removable(alloc, view, work)? {
        Ok(force || work.is_kept_enough(view.state.now))
    } else {
        Ok(false)
    }
}

/// Whether a record, which is there, may be removed: it is finished, and no unfinished one needs it.
#[tactic(auto, unfolding(wm_machine::specs::Pruned::removable))]
fn is_removable(alloc: Global, view: &View, work: &Record) -> Result<bool, AllocError>
    requires { is_there view.now.works work.now.seq ≡ true }
    ensures { IfOk result (λ may. may ≡ removable view.entry.now.works work.entry.now) }
{
    if work.phase.is_open() {
        Ok(false)
    } else {
        Ok(!is_needed(alloc, view, work.seq)?)
    }
}

/// Whether an unfinished record has the work of this number, which is there, as a prerequisite.
fn is_needed(alloc: Global, view: &View, number: u64) -> Result<bool, AllocError>
    requires { is_there view.now.works number ≡ true }
    ensures { IfOk result (λ needed. needed ≡ is_needed view.entry.now.works number) }
{
    let cancelled = Numbers::none(alloc);
    let needed = is_needed_then(view, &cancelled, number)?;
    Ok(needed)
}
