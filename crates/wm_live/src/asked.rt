//! What an ask comes to at a table: a command, or an answer without one.
ghost use Rattle.std.specs.Prelude.{◌≡◌, ◌<◌, ◌^◌, ◌++◌, ◌∷◌, [], ℕ, length, IfOk};
ghost use Rattle.wm_asks.specs.Asked.{constraints_met, delay_met, due_met, or_refused, period_met, ticked};
ghost use Rattle.wm_live.specs.Asking.{Came, MayAsk};
ghost use Rattle.wm_machine.specs.Cancelled.{work_with_id};
ghost use Rattle.wm_machine.specs.Outcome.{IsLegalLine};
ghost use Rattle.wm_machine.specs.Quiet.{IsQuiet};
ghost use Rattle.wm_machine.specs.Valid.{Valid};

use uuid::Uuid;
use wm_asks::{Ask, Clock, LAST_MOMENT, LiveRefusal, LiveReply, meet};
use wm_keeper::Keeper;
use wm_machine::{Command, Shown};
use wm_table::{Mark, Table};

/// What an ask comes to in a quiet state: a command that is legal there, or an answer without one. Of the
/// clock it takes an answer for [`Ask::Tick`] alone.
pub(crate) fn asked<K: Keeper, M: Mark, C: Clock>(
    table: &Table<K, M>,
    ask: Ask,
    clock: &mut C,
) -> Result<Command, LiveReply>
    requires valid { Valid table.now.state }
    requires quiet { IsQuiet table.now.state }
    requires may { MayAsk ask (C.answers clock.old) }
    ensures came { Came table.now.state ask (C.answers clock.old) (C.answers clock.new) result }
    ensures pace { C.pace clock.new ≡ C.pace clock.old }
    ensures legal { IfOk result (IsLegalLine table.now.state) }
{
    match ask {
        Ask::Line(command) => Ok(command),
        Ask::DelayMet(id) => or_refused(delay_met(table, id)),
        Ask::PeriodMet(id) => or_refused(period_met(table, id)),
        Ask::ConstraintsMet(id) => or_refused(constraints_met(table, id)),
        Ask::Tick => tick(table.now(), clock),
        Ask::Wake => Err(LiveReply::Wake(table.wake())),
    }
}

/// What was asked for, or that it is refused.
fn or_refused(come: Result<Command, LiveRefusal>) -> Result<Command, LiveReply>
    ensures { result ≡ or_refused come }
{
    match come {
        Ok(command) => Ok(command),
        Err(refusal) => Err(LiveReply::Refused(refusal)),
    }
}

/// That the delay of a one-time work be met.
fn delay_met<K: Keeper, M: Mark>(table: &Table<K, M>, id: Uuid) -> Result<Command, LiveRefusal>
    requires { Valid table.now.state }
    ensures { result ≡ delay_met table.now.state id (work_with_id table.now.state.works id) }
{
    let Some(work) = table.work(&id) else {
        return Err(LiveRefusal::NoSuchWork { id });
    };
    if work.request.period().is_some() {
        return Err(LiveRefusal::KindMismatch { id });
    }
    let Some(state) = table.shown(&id) else {
        unreachable!();
    };
    if !matches!(state, Shown::Enqueued) {
        return Err(LiveRefusal::NotWaiting { id, state });
    }
    due_met(id, table.now(), work.due())
}

/// That the period of a periodic work be met.
fn period_met<K: Keeper, M: Mark>(table: &Table<K, M>, id: Uuid) -> Result<Command, LiveRefusal>
    requires { Valid table.now.state }
    ensures { result ≡ period_met table.now.state id (work_with_id table.now.state.works id) }
{
    let Some(work) = table.work(&id) else {
        return Err(LiveRefusal::NoSuchWork { id });
    };
    if work.request.period().is_none() {
        return Err(LiveRefusal::KindMismatch { id });
    }
    let Some(state) = table.shown(&id) else {
        unreachable!();
    };
    if !matches!(state, Shown::Enqueued) {
        return Err(LiveRefusal::NotWaiting { id, state });
    }
    due_met(id, table.now(), work.due())
}

/// That the constraints of a work be met.
fn constraints_met<K: Keeper, M: Mark>(
    table: &Table<K, M>,
    id: Uuid,
) -> Result<Command, LiveRefusal>
    ensures { result ≡ constraints_met table.now.state id (work_with_id table.now.state.works id) }
{
    let Some(work) = table.work(&id) else {
        return Err(LiveRefusal::NoSuchWork { id });
    };
    let Some(state) = table.shown(&id) else {
        unreachable!();
    };
    if !matches!(state, Shown::Enqueued) {
        return Err(LiveRefusal::NotWaiting { id, state });
    }
    let conditions = meet(&work.request.constraints(), &table.conditions());
    Ok(Command::Conditions(conditions))
}

/// The moment at which the work of an id is due, or the present one, where that is later.
fn due_met(id: Uuid, now: u64, due: u64) -> Result<Command, LiveRefusal>
    ensures { result ≡ due_met id now due }
{
    if due > LAST_MOMENT {
        return Err(LiveRefusal::NeverDue { id, due });
    }
    Ok(Command::Moment(now.max(due)))
}

/// The moment that a clock tells, where it is above the present one.
fn tick<C: Clock>(now: u64, clock: &mut C) -> Result<Command, LiveReply>
    requires { length (C.answers clock.old) < 2 ^ 53 }
    ensures pace { C.pace clock.new ≡ C.pace clock.old }
    ensures told { (moment : ℕ) × ((C.answers clock.new ≡ C.answers clock.old ++ moment ∷ []) × (result ≡ ticked now moment)) }
{
    let told = clock.now().min(LAST_MOMENT);
    if told > now {
        Ok(Command::Moment(told))
    } else {
        Err(LiveReply::Ticked)
    }
}
