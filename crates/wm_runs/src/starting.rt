//! How the work that is first starts: its run begins, or it can't start.
ghost use Rattle.std.specs.Prelude.{◌≡◌, ◌<◌, length, slice_get, Ok, Some, None, IfOk, MatchOption};
ghost use Rattle.wm_graph.specs.Nodes.{HasNode};
ghost use Rattle.wm_machine.specs.First.{first_of, idle_instance};
ghost use Rattle.wm_machine.specs.Input.{input_of};
ghost use Rattle.wm_machine.specs.Runs.{start_refusal};
ghost use Rattle.wm_runs.specs.Builds.{IsClaiming, IsFirstAt};
ghost use Rattle.wm_runs.specs.Reached.{replaced_by_no_start};
ghost use Rattle.wm_changes.specs.Nodes.{nodes_of};

use crate::inputs::input_among;
use crate::reach::{not_started_reach, replaced_by};
use std::alloc::{AllocError, Global};
use wm_changes::{Replacement, RunChange, StepChange};
use wm_collections::{Items, Replica, both, copied};
use wm_data::Data;
use wm_lifecycle::{not_started, run_on, started};
use wm_machine::{Cause, Event, Instance, Record, Run, idle_in};
use wm_steps::View;

/// What becomes of the work that is first.
#[derive(Drop)]
pub enum Claimed {
    /// The run of this number begins, and takes this input.
    Run { run: u64, input: Data },
    /// The work of this number can't start.
    Failed { seq: u64, cause: Cause },
}

/// The change of a start's step, and what it claims.
#[derive(Drop)]
pub struct Claiming {
    pub change: StepChange,
    pub claimed: Claimed,
}

/// The start of the work that is first; none where nothing is startable.
pub fn claim_first(alloc: Global, view: &View) -> Result<Option<Claiming>, AllocError>
    ensures { IfOk result (λ found. MatchOption found (first_of view.entry.now ≡ None) (IsClaiming view.entry.now)) }
{
    let Some(index) = first_index(view) else {
        return Ok(None);
    };
    let work = view.work_at(index);
    match idle_in(
        view.state.instances.as_slice(),
        work.request.class().as_str(),
    ) {
        Some(idle) => Ok(Some(start_merged(alloc, view, index, work, idle)?)),
        None => Ok(Some(fail(alloc, view, work, Cause::NoWorker)?)),
    }
}

/// The index of the work that is first; none where nothing is startable. It takes no memory.
fn first_index(view: &View) -> Option<usize>
    ensures { MatchOption result (first_of view.now ≡ None) (λ index. (index < length view.now.works)
        × (first_of view.now ≡ slice_get view.now.works index)) }
{
    // what the type of a view keeps is known where a field of it is read
    let _reached = &view.state;
    let number = view.first()?;
    view.place_of(number)
}

/// The start of a work on an instance, or its failure where its inputs don't become one.
fn start_merged(
    alloc: Global,
    view: &View,
    index: usize,
    work: &Record,
    idle: &Instance,
) -> Result<Claiming, AllocError>
    requires first { IsFirstAt view.now index work.now }
    requires idle { idle_instance view.now.instances work.now.request.class ≡ Some idle.now }
    ensures { IfOk result (IsClaiming view.entry.now) }
{
    match input_among(alloc, view, work)? {
        Ok(input) => start(alloc, view, index, work, idle, input),
        Err(cause) => fail(alloc, view, work, cause),
    }
}

/// The start of a work on an instance, with this input.
fn start(
    alloc: Global,
    view: &View,
    index: usize,
    work: &Record,
    idle: &Instance,
    input: Data,
) -> Result<Claiming, AllocError>
    requires first { IsFirstAt view.now index work.now }
    requires idle { idle_instance view.now.instances work.now.request.class ≡ Some idle.now }
    requires input { input_of view.now work.now ≡ Ok input }
    ensures { IfOk result (IsClaiming view.entry.now) }
{
    let (input, changed) = both(input, started(alloc, work))?;
    let run = run_on(&view.state, work, changed.attempt, idle, input);
    let said = said_of(alloc, &run);
    let ((changed, run), (event, claimed)) = both((changed, run), said)?;
    let change = StepChange::replacing(alloc, index, changed, RunChange::Begin(run), event);
    let (claimed, change) = both(claimed, change)?;
    Ok(Claiming { change, claimed })
}

/// The failure of a work that can't start for this cause.
fn fail(alloc: Global, view: &View, work: &Record, cause: Cause) -> Result<Claiming, AllocError>
    requires first { first_of view.now ≡ Some work.now }
    requires refused { start_refusal view.now work.now ≡ Some cause }
    ensures { IfOk result (IsClaiming view.entry.now) }
{
    let _reached = &view.state;
    let (cause, replaced) = both(cause, replaced_by_no_start(alloc, view, work))?;
    let (cause, logged, replaced) = copied(alloc, cause, replaced)?;
    let event = Event::StartFailed {
        seq: work.seq,
        cause: logged,
    };
    let change = StepChange::replacing_all(alloc, replaced, RunChange::Unchanged, event);
    let claimed = Claimed::Failed {
        seq: work.seq,
        cause,
    };
    Ok(Claiming { change, claimed })
}

/// The records that take the place of others where a work can't start.
fn replaced_by_no_start(
    alloc: Global,
    view: &View,
    work: &Record,
) -> Result<Items<Replacement>, AllocError>
    requires { HasNode (nodes_of view.now.works) work.now.seq }
    ensures { IfOk result (λ replaced. replaced
        ≡ replaced_by_no_start view.entry.now work.entry.now) }
{
    let itself = not_started(alloc, work, view.state.now)?;
    let (itself, reach) = both(itself, not_started_reach(view, work))?;
    replaced_by(alloc, view, &itself, &reach)
}

/// The event by which a run begins, and what is claimed by it.
fn said_of(alloc: Global, run: &Run) -> Result<(Event, Claimed), AllocError>
    ensures { IfOk result (λ said. said ≡ (
      Event.Start run.entry.now.run run.entry.now.seq run.entry.now.instance run.entry.now.input,
      Claimed.Run run.entry.now.run run.entry.now.input,
    )) }
{
    let claimed = Claimed::Run {
        run: run.run,
        input: run.input.replica(alloc)?,
    };
    let (claimed, input) = both(claimed, run.input.replica(alloc))?;
    let event = Event::Start {
        run: run.run,
        seq: run.seq,
        instance: run.instance,
        input,
    };
    Ok((event, claimed))
}
