//! How a run goes on by the report of its worker.
ghost use Rattle.std.specs.Prelude.{◌≡◌, true, Some, IfOk};
ghost use Rattle.wm_machine.specs.Turns.{telling};
ghost use Rattle.wm_runs.specs.Builds.{IsTurning};
ghost use Rattle.wm_runs.specs.Reports.{goes_on, wants_more, CountsIn};
ghost use Rattle.wm_worker.specs.Answers.{given_of};
ghost use Rattle.wm_worker.specs.declared.answer.Given.TheVariants as given;

use crate::reports::{FoundRun, found_run};
use std::alloc::{AllocError, Global};
use wm_changes::{RunChange, StepChange};
use wm_collections::{Replica, both};
use wm_data::Data;
use wm_machine::{Event, Record};
use wm_steps::View;
use wm_worker::{Answer, Told};

/// The next turn of the run of this number, for which the report counts, and which goes on.
pub fn next_turn(
    alloc: Global,
    view: &View,
    number: u64,
    told: &Told,
) -> Result<StepChange, AllocError>
    requires counts { CountsIn view.now number told.now }
    requires goes_on { goes_on told.now ≡ true }
    ensures { IfOk result (IsTurning view.entry.now number told.now) }
{
    let FoundRun { run, index, work } = found_run(view, number);
    let progress = progress_in(told.answer()).replica(alloc)?;
    let changed = telling(alloc, work, &progress);
    let (progress, changed) = both(progress, changed)?;
    let event = Event::Turn {
        run: number,
        progress,
    };
    StepChange::keeping_row(alloc, index, changed, RunChange::Turn(run.run), event)
}

/// What an answer that asks for one more turn tells of the progress.
fn progress_in(answer: &Answer) -> &Option<Data>
    requires { wants_more (given_of answer.now) ≡ true }
    ensures { given_of answer.entry.now ≡ Some (given.More result.now) }
{
    match answer {
        Answer::More(progress) => progress,
        _ => unreachable!(),
    }
}

/// The record of a work that tells this as its progress, where it is given.
fn telling(alloc: Global, work: &Record, progress: &Option<Data>) -> Result<Record, AllocError>
    ensures { IfOk result (λ changed. changed ≡ telling progress.now work.entry.now) }
{
    let mut changed = work.replica(alloc)?;
    if let Some(progress) = progress {
        changed.progress = progress.replica(alloc)?;
    }
    Ok(changed)
}
