//! The serial run: the lines one after another, and after each of them all that may start.
ghost use Rattle.std.specs.Prelude.{◌≡◌, ◌<◌, ◌∷◌, [], List, None, IsSome, true};
ghost use Rattle.std.specs.List.{AllByRecursion};
ghost use Rattle.wm_bench.specs.Places.{idle_hands};
ghost use Rattle.wm_bench.specs.declared.hand.Hand.{Hand};
ghost use Rattle.wm_machine.specs.Outcome.{IsAskable};
ghost use Rattle.wm_machine.specs.Quiet.{IsQuiet};
ghost use Rattle.wm_machine.specs.Waiting.{left_to_drain};
ghost use Rattle.wm_machine.specs.declared.command.Command.{Command};
ghost use Rattle.wm_session.specs.Drive.{IsDriven, IsTurned, IsUnderWay};
ghost use Rattle.wm_session.specs.Ended.{IsBookEnd, IsSerialEnd};
ghost use Rattle.wm_session.specs.BetweenRuns.{GoesInOrder, IsAtBegin, IsBetweenRuns, IsReady, KeepBoxes};
ghost use Rattle.wm_ended.specs.Tells.{tells_of};
ghost use Rattle.wm_worker.specs.Diary.{diary_with};
ghost use Rattle.wm_worker.specs.declared.answer.Entry.TheVariants.{Begun};

use crate::book::{After, Book, Front, Job};
use std::alloc::Global;
use wm_bench::Seated;
use wm_ended::Ended;
use wm_io::Sink;
use wm_keeper::Keeper;
use wm_pool::{Gate, Point};
use wm_seating::{pass_turn, turn};
use wm_table::{Mark, Ticket};
use wm_worker::{Signal, Worker};

/// What became of the work that was first.
#[derive(Clone, Copy, Debug, PartialEq, Eq)]
enum Progress {
    /// It was driven to its end, or couldn't start, or the session ended early while it ran.
    Driven,
    /// Nothing is startable.
    Nothing,
    /// The session has ended early.
    Stopped,
}

/// Executes the lines of a book that are left, one after another. After each line, and once before
/// where there is none or the first one settles, the work that is first is started and driven to its
/// end, until there is nothing left to do. The gate is passed before each line and before each turn.
/// No ticket is out. Where the session hasn't begun before, its log is in serial order, and the
/// workers have written down their part of it. It waits for nothing, and returns where the gate does.
pub fn run_serial<K: Keeper, W: Sink, B: Worker, M: Mark, G: Gate>(
    alloc: Global,
    mut book: Book<K, W, B, M>,
    gate: &G,
) -> Ended<K, W, B>
    requires none_out { book.table.roll ≡ [] }
    ensures end { IsBookEnd (tells_of K.store W.given W.faults B.kind_of B.diary_of)
        M.inputs result }
    ensures serial { IsAtBegin M.inputs.lines book
        → IsSerialEnd (tells_of K.store W.given W.faults B.kind_of B.diary_of)
        M.inputs (idle_hands book.places) result }
{
    execute_lines(alloc, &mut book, gate);
    book.finish()
}

/// Executes the lines that are left. After each of them, and once before where none is left or the
/// first one settles, it drives all that may start, until there is nothing left to do.
fn execute_lines<K: Keeper, W: Sink, B: Worker, M: Mark, G: Gate>(
    alloc: Global,
    book: &mut Book<K, W, B, M>,
    gate: &G,
)
    requires none_out { book.old.table.roll ≡ [] }
    ensures askable { AllByRecursion IsAskable book.old.left }
    ensures rest { IsBetweenRuns book.new }
    ensures done { book.new.status ≡ None → book.new.left ≡ [] }
    ensures quiet { book.new.status ≡ None → IsQuiet book.new.table.state }
    ensures order { (lines : List Command) → IsReady lines book.old → IsReady lines book.new }
    ensures boxes { (given : List (Hand B))
        → KeepBoxes B.diary_of given book.old → KeepBoxes B.diary_of given book.new }
{
    if book.drains_first() {
        drain(alloc, book, gate);
    }
    'lines: loop {
        pass_line(book, gate);
        match book.front_step() {
            Front::Moved => drain(alloc, book, gate),
            Front::NotSettled => unreachable!(),
            Front::Ended | Front::Stopped => return,
        }
    }
}

/// Passes the gate before the next line, where one is left.
fn pass_line<K: Keeper, W: Sink, B: Worker, M: Mark, G: Gate>(book: &Book<K, W, B, M>, gate: &G) {
    if let Some(line) = book.next_line() {
        gate.at(Point::Front { line });
    }
}

/// Drives all that may start, until there is nothing left to do. Each start leaves fewer works that
/// wait and are due by now or blocked, so it ends.
fn drain<K: Keeper, W: Sink, B: Worker, M: Mark, G: Gate>(
    alloc: Global,
    book: &mut Book<K, W, B, M>,
    gate: &G,
)
    requires { IsBetweenRuns book.old }
    ensures rest { IsBetweenRuns book.new }
    ensures left { book.new.left ≡ book.old.left }
    ensures quiet { book.new.status ≡ None → IsQuiet book.new.table.state }
    ensures order { (lines : List Command)
        → GoesInOrder lines book.old → GoesInOrder lines book.new }
    ensures boxes { (given : List (Hand B))
        → KeepBoxes B.diary_of given book.old → KeepBoxes B.diary_of given book.new }
{
    'starts: while let Progress::Driven = drive_first(alloc, book, gate) {}
}

/// Starts the work that is first, and drives its run to its end.
fn drive_first<K: Keeper, W: Sink, B: Worker, M: Mark, G: Gate>(
    alloc: Global,
    book: &mut Book<K, W, B, M>,
    gate: &G,
) -> Progress
    requires { IsBetweenRuns book.old }
    ensures rest { IsBetweenRuns book.new }
    ensures left { book.new.left ≡ book.old.left }
    ensures fewer { result ≡ Progress.Driven
        → left_to_drain book.new.table.state < left_to_drain book.old.table.state }
    ensures nothing { result ≡ Progress.Nothing → IsQuiet book.new.table.state }
    ensures stopped { result ≡ Progress.Stopped → IsSome book.new.status }
    ensures order { (lines : List Command)
        → GoesInOrder lines book.old → GoesInOrder lines book.new }
    ensures boxes { (given : List (Hand B))
        → KeepBoxes B.diary_of given book.old → KeepBoxes B.diary_of given book.new }
{
    match book.claim_alone() {
        Job::Run(ticket, seat, signal) => {
            drive(alloc, book, gate, ticket, seat, &signal);
            Progress::Driven
        }
        Job::Failed => Progress::Driven,
        Job::None => Progress::Nothing,
        Job::Stopped => Progress::Stopped,
    }
}

/// Drives a run that has started to its end: its worker begins, and then takes its turns. Where
/// memory is refused to it as it begins, that is reported in place of a turn.
fn drive<K: Keeper, W: Sink, B: Worker, M: Mark, G: Gate>(
    alloc: Global,
    book: &mut Book<K, W, B, M>,
    gate: &G,
    ticket: Ticket<M>,
    mut seat: Seated<B>,
    signal: &Signal,
)
    requires under_way { IsUnderWay B.kind_of ticket book.old }
    requires number { seat.number ≡ ticket.instance }
    requires kind { B.kind_of seat.worker ≡ ticket.kind }
    requires signal_is { signal.now ≡ record { run = ticket.task.run; never = true } }
    ensures { IsDriven B.diary_of ticket.instance (B.diary_of seat.worker)
        (diary_with (Begun ticket.task.run ∷ []) (B.diary_of seat.worker)) book.old book.new }
{
    match seat.begin(alloc, ticket.task()) {
        Ok(()) => take_turns(alloc, book, gate, ticket, seat, signal),
        Err(refused) => match book.report(ticket, seat, Err(refused)) {
            After::Stopped => {}
            After::Go(..) | After::Over | After::Again(..) => unreachable!(),
        },
    }
}

/// Has the worker of a run, which has begun it, take turn after turn, until the run is over or the
/// session has ended early. A run has at most 1,000 turns, so it ends.
fn take_turns<K: Keeper, W: Sink, B: Worker, M: Mark, G: Gate>(
    alloc: Global,
    book: &mut Book<K, W, B, M>,
    gate: &G,
    mut ticket: Ticket<M>,
    mut seat: Seated<B>,
    signal: &Signal,
)
    requires under_way { IsUnderWay B.kind_of ticket book.old }
    requires number { seat.number ≡ ticket.instance }
    requires kind { B.kind_of seat.worker ≡ ticket.kind }
    requires signal_is { signal.now ≡ record { run = ticket.task.run; never = true } }
    ensures { IsDriven B.diary_of ticket.instance
        (B.diary_of seat.worker) (B.diary_of seat.worker) book.old book.new }
{
    'turns: loop {
        let Some((next, kept)) = turn_once(alloc, book, gate, ticket, seat, signal) else {
            return;
        };
        ticket = next;
        seat = kept;
    }
}

/// Has the worker of a run take its turn, and reports what it told. Where the run goes on, its
/// ticket for the next turn comes back, with the same seat.
fn turn_once<K: Keeper, W: Sink, B: Worker, M: Mark, G: Gate>(
    alloc: Global,
    book: &mut Book<K, W, B, M>,
    gate: &G,
    ticket: Ticket<M>,
    mut seat: Seated<B>,
    signal: &Signal,
) -> Option<(Ticket<M>, Seated<B>)>
    requires under_way { IsUnderWay B.kind_of ticket book.old }
    requires number { seat.number ≡ ticket.instance }
    requires kind { B.kind_of seat.worker ≡ ticket.kind }
    requires signal_is { signal.now ≡ record { run = ticket.task.run; never = true } }
    ensures { IsTurned B.kind_of B.diary_of ticket seat.worker result book.old book.new }
{
    pass_turn(&ticket, gate);
    let told = turn(alloc, &mut seat, &ticket, signal);
    match book.report(ticket, seat, told) {
        After::Go(next, kept) => Some((next, kept)),
        After::Over | After::Stopped => None,
        After::Again(..) => unreachable!(),
    }
}
