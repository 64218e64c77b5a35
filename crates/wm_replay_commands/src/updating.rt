//! The command that updates a work.
ghost use Rattle.std.specs.Prelude.{◌≡◌, IfOk, MatchOption, OnOk};
ghost use Rattle.std.specs.Option.{option_copied};
ghost use Rattle.wm_replay_commands.specs.Updates.{with_updated, LeavesAs, UpdatesWork};
ghost use Rattle.wm_machine.specs.Cancelled.{work_with_id};
ghost use Rattle.wm_machine.specs.Updated.{applied, asks_of_next, is_same_kind, one_update_more, update, update_found};
ghost use Rattle.wm_machine.specs.declared.state.State.{State};

use std::alloc::{AllocError, Global};
use uuid::Uuid;
use wm_collections::Replica;
use wm_lifecycle::one_update_more;
use wm_machine::{Applied, Phase, Record, Refusal, Reply, Run, State};
use wm_replay_runs::changing::{Change, change_items};
use wm_replay_runs::work_changes::{WorkChange, change_work};
use wm_request::{NextRun, Request};
use wm_schedule::Period;

/// The command that updates the work with a request's id. Its current run is renewed where the
/// request sets or clears the moment of its next one. A finished work is left as it is; one that isn't
/// there is refused, and an unfinished one of the other kind.
pub fn update(alloc: Global, state: &mut State, request: &Request) -> Result<Reply, AllocError>
    ensures { IfOk result (λ reply. update state.old request.entry.now ≡ record {
      reply = reply;
      state = state.new;
    }) }
{
    let reply = update_reply(state.works.as_slice(), request);
    if let Some(seq) = updated_number(state.works.as_slice(), request) {
        update_work(alloc, state, seq, request)?;
    }
    Ok(reply)
}

/// Updates the work of this number by a request.
pub fn update_work(
    alloc: Global,
    state: &mut State,
    seq: u64,
    request: &Request,
) -> Result<(), AllocError>
    ensures { OnOk result (state.new ≡ with_updated request.entry.now seq state.old) }
{
    change_work(alloc, &mut state.works, seq, &Updating { request })?;
    let renews = asks_of_next(request.next());
    change_items(alloc, &mut state.runs, &Renewing { renews, seq })
}

/// Whether a request sets the moment of the next run or clears it.
fn asks_of_next(next: NextRun) -> bool
    ensures { result ≡ asks_of_next next }
{
    !matches!(next, NextRun::Leave)
}

/// The reply to an update by a request.
fn update_reply(works: &[Record], request: &Request) -> Reply
    ensures { (s : State) → s.works ≡ works.entry.now → (update s request.entry.now).reply ≡ result }
{
    match work_with_id(works, request.id()) {
        Some(work) => found_reply(work, request),
        None => Reply::Refused(Refusal::NoSuchWork { id: request.id() }),
    }
}

/// The reply to an update of a work by a request.
fn found_reply(work: &Record, request: &Request) -> Reply
    ensures { (s : State) → (update_found s request.entry.now work.entry.now).reply ≡ result }
{
    if !work.phase.is_open() {
        updated_reply(Applied::NotApplied, work.generation)
    } else if is_same_kind(request.period(), work.request.period()) {
        changed_reply(work)
    } else {
        Reply::Refused(Refusal::KindMismatch { id: request.id() })
    }
}

/// The reply to an update that changes a work.
pub fn changed_reply(work: &Record) -> Reply
    ensures { result ≡ Reply.Updated (applied work.entry.now.phase) (one_update_more work.entry.now.generation) }
{
    updated_reply(applied(work.phase), one_update_more(work.generation))
}

/// The reply to an update that does this, and leaves a work with this generation.
fn updated_reply(applied: Applied, generation: u64) -> Reply
    ensures { result ≡ Reply.Updated applied generation }
{
    Reply::Updated {
        result: applied,
        generation,
    }
}

/// The number of the work that an update by a request changes, if any.
fn updated_number(works: &[Record], request: &Request) -> Option<u64>
    ensures { (s : State) → s.works ≡ works.entry.now
        → MatchOption result (LeavesAs s request.entry.now) (UpdatesWork s request.entry.now) }
{
    match work_with_id(works, request.id()) {
        Some(work) => changing_number(work, request),
        None => None,
    }
}

/// The number of a work, where an update by a request changes it.
fn changing_number(work: &Record, request: &Request) -> Option<u64>
    ensures { (s : State) → MatchOption result
        ((update_found s request.entry.now work.entry.now).state ≡ s)
        (λ seq. (update_found s request.entry.now work.entry.now).state ≡ with_updated request.entry.now seq s) }
{
    if work.phase.is_open() && is_same_kind(request.period(), work.request.period()) {
        Some(work.seq)
    } else {
        None
    }
}

/// The record with this id.
fn work_with_id(works: &[Record], id: Uuid) -> Option<&Record>
    ensures { option_copied result ≡ work_with_id works.entry.now id }
{
    works.iter().find(|work| work.request.id() == id)
}

/// Whether both are one-time, or both periodic.
fn is_same_kind(one: Option<Period>, other: Option<Period>) -> bool
    ensures { result ≡ is_same_kind one other }
{
    one.is_some() == other.is_some()
}

/// When an update of work in this phase counts.
fn applied(phase: Phase) -> Applied
    ensures { result ≡ applied phase }
{
    match phase {
        Phase::Running => Applied::ForNextRun,
        _ => Applied::Immediately,
    }
}

/// It is asked for anew.
#[derive(Clone, Copy)]
struct Updating<'a> {
    request: &'a Request,
}

impl WorkChange for Updating<'_> {
    ghost use Rattle.wm_machine.specs.Updated.{updated};

    ghost becomes = { λ c work. updated c.request.now work };

    fn make(&self, alloc: Global, work: &mut Record) -> Result<(), AllocError> {
        let request = self.request.replica(alloc)?;
        *work = wm_lifecycle::updated(alloc, work, request)?;
        Ok(())
    }
}

/// The current run of the work of a number is renewed, where that is asked.
#[derive(Clone, Copy)]
struct Renewing {
    renews: bool,
    seq: u64,
}

impl Change<Run> for Renewing {
    ghost use Rattle.std.specs.Prelude.{◌&&◌};
    ghost use Rattle.wm_machine.specs.Updated.{is_run_of, made_new};

    ghost meant = { λ c run. c.renews && is_run_of c.seq run };

    ghost made = { λ _ run. made_new run };

    fn is_meant(&self, run: &Run) -> bool {
        self.renews && run.current && run.seq == self.seq
    }

    fn make(&self, _alloc: Global, run: &mut Run) -> Result<(), AllocError> {
        run.renewed = true;
        Ok(())
    }
}
