//! A drain: all that is startable is started and driven to its end, one work after another.
ghost use Rattle.std.specs.Prelude.{◌≡◌, true};
ghost use Rattle.wm_live.specs.Drained.{AdvanceCause, IsAdvanced, IsDrained, IsDriven, IsTurned, TurnCause};
ghost use Rattle.wm_live.specs.Rest.{IsAtRest, IsUnderWay};
ghost use Rattle.wm_seating.specs.Idle.{IsIdle};
ghost use Rattle.wm_engine.specs.Calls.{TroubleCause};

use crate::stand::{After, Job, Stand};
use wm_bench::Seated;
use wm_keeper::Keeper;
use wm_pool::{Gate, OpenGate};
use wm_seating::{pass_turn, turn};
use wm_table::{Mark, Ticket, Trouble};
use wm_worker::{Signal, Worker};

/// What became of the work that was first.
#[derive(Clone, Copy, Debug, PartialEq, Eq)]
pub(crate) enum Progress {
    /// It was driven to its end, or couldn't start.
    Driven,
    /// Nothing is startable.
    Nothing,
    /// There was trouble.
    Stopped(Trouble),
}

/// Drives all that is startable to its end, until nothing is left to do, and puts the texts of the events
/// that it makes behind the text. It begins at any table without a run and without a ticket that is out,
/// also at one that has events. Each start leaves fewer works that wait and are due by now or blocked, so
/// it ends.
///
/// `Memory` comes where memory was refused, `KeeperFault` where the keeper failed. Then the log goes on by
/// a front of a drain, no ticket is out, and the last of its events may have no text.
pub fn drain<K: Keeper, B: Worker, M: Mark>(stand: &mut Stand<K, B, M>) -> Result<(), Trouble>
    requires { IsIdle B.kind_of stand.old.table stand.old.places }
    ensures drained { IsDrained B.kind_of result stand.old stand.new }
    ensures cause { TroubleCause result (K.store stand.old.table.keeper).faults (K.store stand.new.table.keeper).faults }
{
    drain_at(stand, &OpenGate)
}

/// The same, and passes the gate before each turn of a run.
pub fn drain_at<K: Keeper, B: Worker, M: Mark, G: Gate>(
    stand: &mut Stand<K, B, M>,
    gate: &G,
) -> Result<(), Trouble>
    requires { IsIdle B.kind_of stand.old.table stand.old.places }
    ensures drained { IsDrained B.kind_of result stand.old stand.new }
    ensures cause { TroubleCause result (K.store stand.old.table.keeper).faults (K.store stand.new.table.keeper).faults }
{
    stand.replays();
    'starts: loop {
        match drive_first(stand, gate) {
            Progress::Driven => {}
            Progress::Nothing => return Ok(()),
            Progress::Stopped(trouble) => return Err(trouble),
        }
    }
}

/// Starts the work that is first, and drives its run to its end.
fn drive_first<K: Keeper, B: Worker, M: Mark, G: Gate>(
    stand: &mut Stand<K, B, M>,
    gate: &G,
) -> Progress
    requires { IsAtRest B.kind_of stand.old }
    ensures advanced { IsAdvanced B.kind_of result stand.old stand.new }
    ensures cause { AdvanceCause result (K.store stand.old.table.keeper).faults (K.store stand.new.table.keeper).faults }
{
    match stand.claim() {
        Job::Run(ticket, seat) => match drive(stand, gate, ticket, seat) {
            Ok(()) => Progress::Driven,
            Err(trouble) => Progress::Stopped(trouble),
        },
        Job::Failed => Progress::Driven,
        Job::None => Progress::Nothing,
        Job::Stopped(trouble) => Progress::Stopped(trouble),
    }
}

/// Drives a run that has started to its end: its worker begins, and then takes its turns.
fn drive<K: Keeper, B: Worker, M: Mark, G: Gate>(
    stand: &mut Stand<K, B, M>,
    gate: &G,
    ticket: Ticket<M>,
    mut seat: Seated<B>,
) -> Result<(), Trouble>
    requires under_way { IsUnderWay B.kind_of ticket stand.old }
    requires number { seat.number ≡ ticket.instance }
    requires kind { B.kind_of seat.worker ≡ ticket.kind }
    ensures driven { IsDriven B.kind_of result stand.old stand.new }
    ensures cause { TroubleCause result (K.store stand.old.table.keeper).faults (K.store stand.new.table.keeper).faults }
{
    let signal = Signal::never(ticket.task().run);
    match seat.begin(stand.alloc, ticket.task()) {
        Ok(()) => take_turns(stand, gate, ticket, seat, &signal),
        Err(_) => {
            stand.put_back(ticket, seat);
            Err(Trouble::Memory)
        }
    }
}

/// Has the worker of a run, which has begun it, take turn after turn, until the run is over or there is
/// trouble. A run has at most 1,000 turns, so it ends.
fn take_turns<K: Keeper, B: Worker, M: Mark, G: Gate>(
    stand: &mut Stand<K, B, M>,
    gate: &G,
    mut ticket: Ticket<M>,
    mut seat: Seated<B>,
    signal: &Signal,
) -> Result<(), Trouble>
    requires under_way { IsUnderWay B.kind_of ticket stand.old }
    requires number { seat.number ≡ ticket.instance }
    requires kind { B.kind_of seat.worker ≡ ticket.kind }
    requires signal_is { signal.now ≡ record { run = ticket.task.run; never = true } }
    ensures driven { IsDriven B.kind_of result stand.old stand.new }
    ensures cause { TroubleCause result (K.store stand.old.table.keeper).faults (K.store stand.new.table.keeper).faults }
{
    'turns: loop {
        match turn_once(stand, gate, ticket, seat, signal) {
            After::Go(next, kept) => {
                ticket = next;
                seat = kept;
            }
            After::Over => return Ok(()),
            After::Stopped(trouble) => return Err(trouble),
        }
    }
}

/// Has the worker of a run take its turn, once the gate was passed, and reports what it told. Where memory
/// is refused to the worker, there is trouble.
fn turn_once<K: Keeper, B: Worker, M: Mark, G: Gate>(
    stand: &mut Stand<K, B, M>,
    gate: &G,
    ticket: Ticket<M>,
    mut seat: Seated<B>,
    signal: &Signal,
) -> After<B, M>
    requires under_way { IsUnderWay B.kind_of ticket stand.old }
    requires number { seat.number ≡ ticket.instance }
    requires kind { B.kind_of seat.worker ≡ ticket.kind }
    requires signal_is { signal.now ≡ record { run = ticket.task.run; never = true } }
    ensures turned { IsTurned B.kind_of ticket result stand.old stand.new }
    ensures cause { TurnCause result (K.store stand.old.table.keeper).faults (K.store stand.new.table.keeper).faults }
{
    pass_turn(&ticket, gate);
    match turn(stand.alloc, &mut seat, &ticket, signal) {
        Ok(told) => stand.end_turn(ticket, seat, told),
        Err(_) => {
            stand.put_back(ticket, seat);
            After::Stopped(Trouble::Memory)
        }
    }
}
