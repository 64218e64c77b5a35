//! How a run ends by the report of its worker.
ghost use Rattle.std.specs.Prelude.{◌≡◌, ◌↔◌, if◌then◌else◌, IfOk, IsTrue, MatchOption, OnOk};
ghost use Rattle.wm_replay_runs.specs.Away.{over, IsEndOf, IsTimeoutOf};
ghost use Rattle.wm_machine.specs.Step.{after, IsEnd, IsTimeout, Legal};
ghost use Rattle.wm_machine.specs.Valid.{Valid};
ghost use Rattle.wm_machine.specs.declared.event.Event.TheVariants as event;

use crate::ending::end_work;
use crate::giving::{may_end, may_want_more};
use crate::run_changes::{remove_run, run_numbered};
use crate::turning::LAST_TURN;
use std::alloc::{AllocError, Global};
use wm_lifecycle::set_out;
use wm_machine::{End, State};

/// A run's work and instance, by their numbers, and whether it was renewed.
#[derive(Clone, Copy)]
struct Ended {
    seq: u64,
    instance: u32,
    renewed: bool,
}

/// The end of the run of this number by its own report. It is legal where the run is current and its
/// worker may end it so: then the run is over, and its work retried, enqueued again or finished, as
/// the end says.
pub fn finish(alloc: Global, state: &mut State, run: u64, end: &End) -> Result<bool, AllocError>
    requires valid { Valid state.old }
    ensures legal { IfOk result (λ legal. IsTrue legal ↔ Legal state.old (event.Finish run end.entry.now)) }
    ensures state { IfOk result (λ legal. state.new
        ≡ (if legal then after state.old (event.Finish run end.entry.now) else state.old)) }
{
    let Some(ended) = ended_run(alloc, state, run, end)? else {
        return Ok(false);
    };
    end_run(alloc, state, run, ended, end)?;
    Ok(true)
}

/// The end of the run of this number, which used up its turns. It is legal where the run is current
/// and at its last turn, and its worker may want one more: then the run is over, and its work
/// retried.
pub fn timed_out(alloc: Global, state: &mut State, run: u64) -> Result<bool, AllocError>
    requires valid { Valid state.old }
    ensures legal { IfOk result (λ legal. IsTrue legal ↔ Legal state.old (event.TimedOut run)) }
    ensures state { IfOk result (λ legal. state.new
        ≡ (if legal then after state.old (event.TimedOut run) else state.old)) }
{
    let Some(ended) = timed_out_run(alloc, state, run)? else {
        return Ok(false);
    };
    end_run(alloc, state, run, ended, &End::Retry)?;
    Ok(true)
}

/// The run of this number, where its worker may end it so.
fn ended_run(
    alloc: Global,
    state: &State,
    number: u64,
    end: &End,
) -> Result<Option<Ended>, AllocError>
    ensures { IfOk result (λ found. MatchOption found
        (IsEnd state.entry.now number end.entry.now → ⊥) (IsEndOf state.entry.now number end.entry.now)) }
{
    let Some(run) = run_numbered(state.runs.as_slice(), number) else {
        return Ok(None);
    };
    if run.current && may_end(alloc, run, end)? {
        Ok(Some(Ended {
            seq: run.seq,
            instance: run.instance,
            renewed: run.renewed,
        }))
    } else {
        Ok(None)
    }
}

/// The run of this number, where it is at its last turn and its worker may want one more.
fn timed_out_run(alloc: Global, state: &State, number: u64) -> Result<Option<Ended>, AllocError>
    ensures { IfOk result (λ found. MatchOption found
        (IsTimeout state.entry.now number → ⊥) (IsTimeoutOf state.entry.now number)) }
{
    let Some(run) = run_numbered(state.runs.as_slice(), number) else {
        return Ok(None);
    };
    if run.current && run.turn == LAST_TURN && may_want_more(alloc, run)? {
        Ok(Some(Ended {
            seq: run.seq,
            instance: run.instance,
            renewed: run.renewed,
        }))
    } else {
        Ok(None)
    }
}

/// The run of this number is over, by this end: its work is what the end makes of it, and its
/// instance isn't out any more.
fn end_run(
    alloc: Global,
    state: &mut State,
    number: u64,
    ended: Ended,
    end: &End,
) -> Result<(), AllocError>
    requires { Valid state.old }
    ensures { OnOk result (state.new ≡ over state.old number ended end.entry.now) }
{
    let now = state.now;
    end_work(alloc, &mut state.works, ended.seq, ended.renewed, now, end)?;
    remove_run(alloc, &mut state.runs, number);
    set_out(alloc, &mut state.instances, ended.instance, false);
    Ok(())
}
