//! A work that was enqueued is asked for anew.
ghost use Rattle.std.specs.Prelude.{◌≡◌, ◌<◌, length, slice_get, None, IfOk, MatchOption};
ghost use Rattle.wm_commands.specs.Builds.{renewal, IsReplacing, IsUpdating};
ghost use Rattle.wm_settings.specs.Builds.{IsExecuted};
ghost use Rattle.wm_machine.specs.Cancelled.{work_with_id};
ghost use Rattle.wm_machine.specs.Limits.{FitsRow};
ghost use Rattle.wm_machine.specs.Updated.{applied, is_same_kind};
ghost use Rattle.wm_request.specs.Requests.{IsRequest};

use std::alloc::{AllocError, Global};
use uuid::Uuid;
use wm_changes::{RunChange, StepChange};
use wm_collections::{both, copied};
use wm_lifecycle::updated;
use wm_machine::{Applied, Command, Event, Phase, Record, Refusal, Reply};
use wm_request::{NextRun, Request};
use wm_rows::have_one_row;
use wm_schedule::Period;
use wm_settings::{event_of, replying};
use wm_steps::View;

/// What an update comes to.
pub fn execute(
    alloc: Global,
    view: &View,
    line: u32,
    request: Request,
) -> Result<StepChange, AllocError>
    requires asked { IsRequest request }
    ensures { IfOk result (IsExecuted view.entry.now line (Command.Update request)) }
{
    match index_with_id(view, request.id()) {
        Some(index) => update_at(alloc, view, line, index, request),
        None => {
            let refusal = Refusal::NoSuchWork { id: request.id() };
            let command = Command::Update(request);
            replying(alloc, view, line, command, Reply::Refused(refusal))
        }
    }
}

/// The index of the record with this id.
fn index_with_id(view: &View, id: Uuid) -> Option<usize>
    ensures { MatchOption result (work_with_id view.now.works id ≡ None) (λ index.
        (index < length view.now.works) × (work_with_id view.now.works id ≡ slice_get view.now.works index)) }
{
    // what the type of a view keeps is known where a field of it is read
    let _reached = &view.state;
    let number = view.number_of(id)?;
    view.place_of(number)
}

/// What the update of the work at an index comes to, which has the request's id: a finished one is
/// left as it is, and an unfinished one of the other kind is refused.
fn update_at(
    alloc: Global,
    view: &View,
    line: u32,
    index: usize,
    request: Request,
) -> Result<StepChange, AllocError>
    requires asked { IsRequest request }
    requires index { index < length view.now.works }
    requires found { work_with_id view.now.works request.id ≡ slice_get view.now.works index }
    ensures { IfOk result (IsExecuted view.entry.now line (Command.Update request)) }
{
    let _reached = &view.state;
    let work = view.work_at(index);
    if !work.phase.is_open() {
        let reply = Reply::Updated {
            result: Applied::NotApplied,
            generation: work.generation,
        };
        replying(alloc, view, line, Command::Update(request), reply)
    } else if is_same_kind(request.period(), work.request.period()) {
        let (request, asked, _) = copied(alloc, request, ())?;
        update_of(alloc, line, Command::Update(asked), index, work, request)
    } else {
        let refusal = Refusal::KindMismatch { id: request.id() };
        let command = Command::Update(request);
        replying(alloc, view, line, command, Reply::Refused(refusal))
    }
}

/// Whether both are one-time, or both periodic.
fn is_same_kind(one: Option<Period>, other: Option<Period>) -> bool
    ensures { result ≡ is_same_kind one other }
{
    one.is_some() == other.is_some()
}

/// What an update of the work at an index comes to, for the command of a line: its record is
/// replaced, its current run is renewed where the moment of the next one is set or cleared, and the
/// reply tells when the update counts and how often the work was updated.
pub fn update_of(
    alloc: Global,
    line: u32,
    command: Command,
    index: usize,
    work: &Record,
    request: Request,
) -> Result<StepChange, AllocError>
    requires { FitsRow work.now }
    ensures { IfOk result (IsUpdating line command index work.entry.now request) }
{
    let next = request.next();
    let (command, changed) = both(command, updated(alloc, work, request))?;
    let reply = Reply::Updated {
        result: applied(work.phase),
        generation: changed.generation,
    };
    let (changed, event) = both(changed, event_of(alloc, line, command, reply))?;
    replacing(alloc, index, work, changed, next, event)
}

/// When an update of work in this phase counts.
fn applied(phase: Phase) -> Applied
    ensures { result ≡ applied phase }
{
    match phase {
        Phase::Running => Applied::ForNextRun,
        _ => Applied::Immediately,
    }
}

/// What becomes of the runs where this is asked of the next one of the work of this number.
fn renewal(next: NextRun, seq: u64) -> RunChange
    ensures { result ≡ renewal next seq }
{
    match next {
        NextRun::Leave => RunChange::Unchanged,
        _ => RunChange::Renew(seq),
    }
}

/// The change of the record at an index to another one of its number, where this is asked of its next
/// run. Where its row stays the same, which an update leaves where it asks for the same and the
/// generation can't rise, it is kept.
fn replacing(
    alloc: Global,
    index: usize,
    work: &Record,
    changed: Record,
    next: NextRun,
    event: Event,
) -> Result<StepChange, AllocError>
    requires work { FitsRow work.now }
    requires changed { FitsRow changed }
    ensures { IfOk result (IsReplacing index work.entry.now changed (renewal next work.entry.now.seq) event) }
{
    let same = have_one_row(alloc, &changed, work);
    let ((changed, event), same) = both((changed, event), same)?;
    if same {
        StepChange::keeping_row(alloc, index, changed, renewal(next, work.seq), event)
    } else {
        StepChange::replacing(alloc, index, changed, renewal(next, work.seq), event)
    }
}
