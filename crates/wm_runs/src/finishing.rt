//! How a run ends by the report of its worker.
ghost use Rattle.std.specs.Prelude.{◌≡◌, true, false, IfOk, IsSome};
ghost use Rattle.wm_machine.specs.Ends.{retried};
ghost use Rattle.wm_runs.specs.Builds.{over, IsEndOf, IsFinish};
ghost use Rattle.wm_runs.specs.Reached.{replaced_by, replaced_by_end};
ghost use Rattle.wm_runs.specs.Reports.{goes_on, CountsIn};
ghost use Rattle.wm_changes.specs.Nodes.{nodes_of, IsUnmarked};
ghost use Rattle.wm_changes.specs.StepChanges.{replacing_all};
ghost use Rattle.wm_worker.specs.Answers.{given_of};

use crate::reach::{Reach, end_reach, replaced_by};
use crate::reports::{FoundRun, found_run};
use std::alloc::{AllocError, Global};
use wm_changes::{Replacement, RunChange, StepChange};
use wm_collections::{Items, Replica, both};
use wm_lifecycle::{ended, timed_out};
use wm_machine::{End, Event, Record, Run};
use wm_steps::View;
use wm_worker::{Answer, Told};

/// The end of the run of this number, for which the report counts, and which doesn't go on: as its
/// worker told, or for want of one more turn.
pub fn finish(
    alloc: Global,
    view: &View,
    number: u64,
    told: &Told,
) -> Result<StepChange, AllocError>
    requires counts { CountsIn view.now number told.now }
    requires over { goes_on told.now ≡ false }
    ensures { IfOk result (IsFinish view.entry.now number told.now) }
{
    let FoundRun { run, work, .. } = found_run(view, number);
    match end_of(alloc, told.answer())? {
        Some(end) => finish_by(alloc, view, work, run, end),
        None => time_out(alloc, view, work, run),
    }
}

/// The end that an answer tells of; none where its worker wants one more turn.
fn end_of(alloc: Global, answer: &Answer) -> Result<Option<End>, AllocError>
    requires { IsSome (given_of answer.now) }
    ensures { IfOk result (IsEndOf answer.entry.now) }
{
    match answer {
        Answer::More(_) => Ok(None),
        Answer::Success(output) => Ok(Some(End::Success(output.replica(alloc)?))),
        Answer::Failure(output) => Ok(Some(End::Failure(output.replica(alloc)?))),
        Answer::Retry => Ok(Some(End::Retry)),
        Answer::Cut(_) => unreachable!(),
    }
}

/// The end of a run of a work by this end.
fn finish_by(
    alloc: Global,
    view: &View,
    work: &Record,
    run: &Run,
    end: End,
) -> Result<StepChange, AllocError>
    requires { IsUnmarked (nodes_of view.now.works) work.now.seq }
    ensures { IfOk result (λ change. change
        ≡ replacing_all (replaced_by_end view.entry.now run.entry.now.renewed work.entry.now end) (over run.entry.now) (Event.Finish run.entry.now.run end)) }
{
    let replaced = replaced_by_end(alloc, view, work, &end, run.renewed);
    let (end, replaced) = both(end, replaced)?;
    let event = Event::Finish { run: run.run, end };
    Ok(StepChange::replacing_all(alloc, replaced, over(run), event))
}

/// The records that take the place of others where a run of a work ended so, which was renewed or
/// wasn't.
fn replaced_by_end(
    alloc: Global,
    view: &View,
    work: &Record,
    end: &End,
    renewed: bool,
) -> Result<Items<Replacement>, AllocError>
    requires { IsUnmarked (nodes_of view.now.works) work.now.seq }
    ensures { IfOk result (λ replaced. replaced
        ≡ replaced_by_end view.entry.now renewed work.entry.now end.now) }
{
    let itself = ended(alloc, work, end, view.state.now, renewed)?;
    let (itself, reach) = both(itself, end_reach(view, work, end))?;
    replaced_by(alloc, view, &itself, &reach)
}

/// The end of a run of a work that has no turn left.
fn time_out(alloc: Global, view: &View, work: &Record, run: &Run) -> Result<StepChange, AllocError>
    ensures { IfOk result (λ change. change
        ≡ replacing_all (replaced_by (retried run.entry.now.renewed view.entry.now.now work.entry.now) Reach.Stays view.entry.now.works)
        (over run.entry.now) (Event.TimedOut run.entry.now.run)) }
{
    let itself = timed_out(alloc, work, view.state.now, run.renewed)?;
    let replaced = replaced_by(alloc, view, &itself, &Reach::Stays)?;
    let event = Event::TimedOut { run: run.run };
    Ok(StepChange::replacing_all(alloc, replaced, over(run), event))
}

/// What becomes of the runs and instances where a run is over.
fn over(run: &Run) -> RunChange
    ensures { result ≡ over run.entry.now }
{
    RunChange::End {
        run: run.run,
        instance: run.instance,
    }
}
