//! The book of a session: the table with the bench, the lines that are left, and what is still to
//! be written.
ghost use Rattle.std.specs.Prelude.{◌≡◌, ◌≢◌, ◌↔◌, ◌^◌, ◌<◌, ◌≤◌, ◌+◌, [], None, Some, length, map, IsSome, IsNone, IsTrue, IfOk, IfErr, MatchBool, Ok, false, true};
ghost use Rattle.std.specs.List.{AllByRecursion};
ghost use Rattle.wm_machine.specs.First.{first_of};
ghost use Rattle.wm_machine.specs.Outcome.{IsAskable};
ghost use Rattle.wm_machine.specs.Quiet.{IsQuiet};
ghost use Rattle.wm_machine.specs.Rows.{rows_of};
ghost use Rattle.wm_machine.specs.Serial.{drains_first};
ghost use Rattle.wm_machine.specs.Valid.{Valid};
ghost use Rattle.wm_seating.specs.Bench.{instance_traits, place_traits, NoneAway};
ghost use Rattle.wm_session.specs.BetweenRuns.{IsBetweenRuns};
ghost use Rattle.wm_session.specs.Book.{failed_told, front_told, over_told, with_back, IsSessionOver, IsClaimed, IsFronted, IsReported, MayCome, MustWait, SettlesNext};
ghost use Rattle.wm_session.specs.Ended.{IsHandedBack, IsSessionEnd, IsWrittenOut};
ghost use Rattle.wm_ended.specs.Tells.{tells_of};
ghost use Rattle.wm_steps.specs.Stored.{LeavesOnly};
ghost use Rattle.wm_engine.specs.Parts.{WasOut};

use crate::pending::{tell_last, tell_rest};
use crate::signals::Signals;
use crate::statuses::status_after;
use std::alloc::{AllocError, Global};
use std::collections::VecDeque;
use std::marker::{Model, PhantomData};
use wm_bench::{Bench, Seated};
use wm_collections::Items;
use wm_ended::{Ended, Status};
use wm_io::{Pending, Sink, WriteFault};
use wm_keeper::Keeper;
use wm_machine::Command;
use wm_seating::{execute, give_back};
use wm_table::{Claim, Mark, Table, TableEnd, Ticket, Trouble, TurnAnswer};
use wm_worker::{Signal, Told, Worker};

/// Why a session ended before its last line.
#[derive(Clone, Copy, Debug, PartialEq, Eq)]
pub enum Stop {
    /// The keeper failed.
    KeeperFault,
    /// The sink failed.
    SinkFault,
    /// Memory was refused.
    Memory,
}

impl From<Trouble> for Stop {
    ghost use Rattle.std.specs.Prelude.{◌≡◌};
    ghost use Rattle.wm_session.specs.Causes.{stop_by_trouble};

    ghost from_gives = { λ trouble stop. stop ≡ stop_by_trouble trouble };

    fn from(trouble: Trouble) -> Stop {
        match trouble {
            Trouble::KeeperFault => Stop::KeeperFault,
            Trouble::Memory => Stop::Memory,
        }
    }
}

impl From<WriteFault> for Stop {
    ghost use Rattle.std.specs.Prelude.{◌≡◌};
    ghost use Rattle.wm_session.specs.Causes.{stop_by_fault};

    ghost from_gives = { λ fault stop. stop ≡ stop_by_fault fault };

    fn from(fault: WriteFault) -> Stop {
        match fault {
            WriteFault::Failed => Stop::SinkFault,
            WriteFault::Memory => Stop::Memory,
        }
    }
}

/// What became of the next line.
#[derive(Clone, Copy, Debug, PartialEq, Eq)]
pub enum Front {
    /// It was executed.
    Moved,
    /// It settles, and there is something left to do first.
    NotSettled,
    /// There is none.
    Ended,
    /// The session has ended early.
    Stopped,
}

/// What there is to drive.
pub enum Job<B, M: Mark> {
    /// A run began: its ticket, its worker and its signal.
    Run(Ticket<M>, Seated<B>, Signal),
    /// A work couldn't start.
    Failed,
    /// Nothing is startable.
    None,
    /// The session has ended early.
    Stopped,
}

/// What became of a run whose worker reported.
pub enum After<B, M: Mark> {
    /// It goes on, with the ticket of its next turn and the same seat.
    Go(Ticket<M>, Seated<B>),
    /// It is over, and its worker is back.
    Over,
    /// What was told isn't a report on the run's turn: ticket and seat are as they were.
    Again(Ticket<M>, Seated<B>),
    /// The session has ended early, and the worker is back.
    Stopped,
}

/// Whether a run began.
fn has_begun<B, M: Mark>(job: &Job<B, M>) -> bool {
    matches!(job, Job::Run(..))
}

/// What became of the next line once its event was made, where the session goes on or stops as it is
/// told.
fn front_told(status: Option<Stop>) -> Front
    ensures { result ≡ front_told status }
{
    match status {
        None => Front::Moved,
        Some(_) => Front::Stopped,
    }
}

/// The same of a work that couldn't start.
fn failed_told<B, M: Mark>(status: Option<Stop>) -> Job<B, M>
    ensures { result ≡ failed_told status }
{
    match status {
        None => Job::Failed,
        Some(_) => Job::Stopped,
    }
}

/// The same of a run that is over.
fn over_told<B, M: Mark>(status: Option<Stop>) -> After<B, M>
    ensures { result ≡ over_told status }
{
    match status {
        None => After::Over,
        Some(_) => After::Stopped,
    }
}

/// That a session of this run was over when it was asked: only [`Book::over`] makes one.
#[derive(Drop)]
pub struct Over<M: Mark> {
    of: PhantomData<M>,
}

/// A session under way: the table with the bench, the lines that are left, the signals of the runs
/// that are out, what is still to be written and where, and why it ended early, where it did. Its
/// type keeps the facts that a run's promises rest on (`specs/Invariant.antt`), of what its run was
/// given: see [`Mark`]. A contract sees all that it holds but the signals.
pub struct Book<K: Keeper, W: Sink, B: Worker, M: Mark> {
    alloc: Global,
    table: Table<K, M>,
    bench: Bench<B>,
    left: VecDeque<Command>,
    line: u32,
    signals: Signals,
    pending: Pending,
    sink: W,
    status: Option<Stop>,
    of: PhantomData<M>,
}

impl<K: Keeper, W: Sink, B: Worker, M: Mark> Model for Book<K, W, B, M> {
    ghost use Rattle.wm_session.specs.BookState.{BookState};

    ghost Value = { BookState K W B };

    ghost use Rattle.wm_session.specs.Invariant.{BookInvariant};
    ghost use Rattle.wm_ended.specs.Tells.{tells_of};

    ghost view = { λ b. record { table = b.table; places = b.bench; left = b.left.items; line = b.line; pending = b.pending; sink = b.sink; status = b.status } };

    ghost invariant = { λ b. BookInvariant M.inputs (tells_of K.store W.given W.faults B.kind_of B.diary_of) (record { table = b.table; places = b.bench; left = b.left.items; line = b.line; pending = b.pending; sink = b.sink; status = b.status }) };
}

impl<K: Keeper, W: Sink, B: Worker, M: Mark> Book<K, W, B, M> {
    /// A session that begins with this table and its workers. Where memory is refused the table, the
    /// bench and the sink come back.
    pub fn new(
        alloc: Global,
        table: Table<K, M>,
        bench: Bench<B>,
        lines: Items<Command>,
        sink: W,
    ) -> Result<Book<K, W, B, M>, (Table<K, M>, Bench<B>, W)>
        requires log { table.log ≡ [] }
        requires none_out { table.roll ≡ [] }
        requires no_run { table.state.runs ≡ [] }
        requires workers { map (place_traits B.kind_of) bench
            ≡ map instance_traits table.state.instances }
        requires none_away { NoneAway bench }
        requires all_in { AllByRecursion (λ instance. instance.out ≡ false) table.state.instances }
        requires valid { Valid table.state }
        requires few { length lines < 2 ^ 32 }
        requires askable { AllByRecursion IsAskable lines }

        // These are what the run was given.
        requires begun { table.state ≡ table.first }
        requires lines { lines ≡ M.inputs.lines }
        requires written { W.given sink ≡ M.inputs.written }
        requires keeper_faults { M.inputs.store.faults ≤ (K.store table.keeper).faults }
        requires sink_faults { M.inputs.sink_faults ≤ W.faults sink }
        requires images { LeavesOnly M.inputs.rows M.inputs.store
            → LeavesOnly (rows_of table.state) (K.store table.keeper) }

        ensures table { IfOk result (λ book. book.table ≡ table) }
        ensures places { IfOk result (λ book. book.places ≡ bench) }
        ensures left { IfOk result (λ book. book.left ≡ lines) }
        ensures status { IfOk result (λ book. book.status ≡ None) }
        ensures kept { IfErr result (λ parts. parts ≡ (table, bench, sink)) }
    {
        match Pending::new(alloc) {
            Ok(pending) => Ok(Book {
                alloc,
                table,
                bench,
                left: VecDeque::from_vec(lines.into_vec()),
                line: 0,
                signals: Signals::new(alloc),
                pending,
                sink,
                status: None,
                of: PhantomData,
            }),
            Err(_) => Err((table, bench, sink)),
        }
    }

    /// Executes the next line, retires a class on the bench where it retires one, raises the signals of
    /// the runs that it stopped, and writes the reply. A line that settles comes only where there is
    /// nothing left to do.
    pub fn front_step(&mut self) -> Front
        ensures { IsFronted K.store B.kind_of result self.old self.new }
    {
        if self.status.is_some() {
            return Front::Stopped;
        }
        if self.must_wait() {
            return Front::NotSettled;
        }
        let Some(command) = self.left.pop_front() else {
            return Front::Ended;
        };
        if let Err(trouble) = execute(&mut self.table, &mut self.bench, self.line + 1, command) {
            self.status = Some(Stop::from(trouble));
            return Front::Stopped;
        }
        self.signals.raise_stopped(self.table.runs());
        self.line += 1;
        self.status = tell_last(&mut self.pending, self.alloc, &self.table, &mut self.sink);
        front_told(self.status)
    }

    /// Starts the work that is first, tells it, and takes the worker of its instance from the bench. The
    /// run's signal is made before its event, and a share of it kept; none is where nothing is startable.
    pub fn claim(&mut self) -> Job<B, M>
        ensures { IsClaimed K.store B.kind_of false result self.old self.new }
    {
        if self.status.is_some() {
            return Job::Stopped;
        }
        if !self.table.has_startable() {
            return Job::None;
        }
        let run = self.table.next_run();
        let Ok(signal) = self.signals.add(self.alloc, run) else {
            self.status = Some(Stop::Memory);
            return Job::Stopped;
        };
        let job = self.start_first(signal);
        if !has_begun(&job) {
            self.signals.remove(run);
        }
        job
    }

    /// Starts the work that is first as [`Book::claim`] does, for a driver that drives its run to the
    /// end before the next line: no line stops it, so its signal is never raised, and none is made.
    pub fn claim_alone(&mut self) -> Job<B, M>
        ensures { IsClaimed K.store B.kind_of true result self.old self.new }
    {
        if self.status.is_some() {
            return Job::Stopped;
        }
        let signal = Signal::never(self.table.next_run());
        self.start_first(signal)
    }

    /// Starts the work that is first, while the session goes on, with a signal of the next run.
    fn start_first(&mut self, signal: Signal) -> Job<B, M>
        requires going { self.old.status ≡ None }
        requires signal { signal.run ≡ self.old.table.state.next_run }
        ensures { IsClaimed K.store B.kind_of signal.never result self.old self.new }
    {
        let claim = match self.table.claim() {
            Ok(Some(claim)) => claim,
            Ok(None) => return Job::None,
            Err(trouble) => {
                self.status = Some(Stop::from(trouble));
                return Job::Stopped;
            }
        };
        match claim {
            Claim::Run(ticket) => {
                let Some(seat) = self.bench.take(ticket.instance()) else {
                    unreachable!();
                };
                self.status = tell_last(&mut self.pending, self.alloc, &self.table, &mut self.sink);
                if self.status.is_some() {
                    drop(signal);
                    self.put_back(ticket, seat);
                    return Job::Stopped;
                }
                Job::Run(ticket, seat, signal)
            }
            Claim::Failed { seq: _, cause } => {
                drop(cause);
                drop(signal);
                self.status = tell_last(&mut self.pending, self.alloc, &self.table, &mut self.sink);
                failed_told(self.status)
            }
        }
    }

    /// Ends the turn of a run as its worker told, tells that, and puts the worker back where the run
    /// is over. A run that was stopped is over whatever the worker told, or was refused. Where memory was
    /// refused to the worker of another, the session ends.
    pub fn report(
        &mut self,
        ticket: Ticket<M>,
        seat: Seated<B>,
        told: Result<Told, AllocError>,
    ) -> After<B, M>
        requires number { seat.number ≡ ticket.instance }
        requires kind { B.kind_of seat.worker ≡ ticket.kind }
        ensures { IsReported K.store B.kind_of ticket seat told result self.old self.new }
    {
        if self.status.is_some() {
            drop(told);
            self.put_back(ticket, seat);
            return After::Stopped;
        }
        match told {
            Ok(told) => self.end_turn(ticket, seat, told),
            Err(_) => self.end_refused(ticket, seat),
        }
    }

    /// Takes a ticket without an event, and puts its worker back, once the session has stopped early.
    fn put_back(&mut self, ticket: Ticket<M>, seat: Seated<B>)
        requires stopped { IsSome self.old.status }
        requires number { seat.number ≡ ticket.instance }
        requires kind { B.kind_of seat.worker ≡ ticket.kind }
        ensures out { WasOut self.old.table.state self.old.table.roll ticket }
        ensures book { self.new ≡ with_back B.kind_of ticket seat self.old }
    {
        give_back(&mut self.table, &mut self.bench, ticket, seat);
    }

    /// Ends a run whose worker was refused memory, while the session goes on: the run that was stopped
    /// is over, and for another one the session ends.
    fn end_refused(&mut self, ticket: Ticket<M>, seat: Seated<B>) -> After<B, M>
        requires going { self.old.status ≡ None }
        requires number { seat.number ≡ ticket.instance }
        requires kind { B.kind_of seat.worker ≡ ticket.kind }
        ensures { IsReported K.store B.kind_of ticket seat (Err _) result self.old self.new }
    {
        let run = ticket.task().run;
        match self.table.late(ticket) {
            Ok(()) => {
                self.bench.give(seat);
                self.signals.remove(run);
                self.status = tell_last(&mut self.pending, self.alloc, &self.table, &mut self.sink);
                over_told(self.status)
            }
            Err(ticket) => {
                self.status = Some(Stop::Memory);
                self.put_back(ticket, seat);
                After::Stopped
            }
        }
    }

    /// Ends the turn of a run as its worker told, while the session goes on.
    fn end_turn(&mut self, ticket: Ticket<M>, seat: Seated<B>, told: Told) -> After<B, M>
        requires going { self.old.status ≡ None }
        requires number { seat.number ≡ ticket.instance }
        requires kind { B.kind_of seat.worker ≡ ticket.kind }
        ensures { IsReported K.store B.kind_of ticket seat (Ok told) result self.old self.new }
    {
        let run = ticket.task().run;
        match self.table.turn(ticket, told) {
            TurnAnswer::Go(next) => {
                self.status = tell_last(&mut self.pending, self.alloc, &self.table, &mut self.sink);
                if self.status.is_some() {
                    self.put_back(next, seat);
                    return After::Stopped;
                }
                After::Go(next, seat)
            }
            TurnAnswer::Finished | TurnAnswer::TimedOut | TurnAnswer::Late => {
                self.bench.give(seat);
                self.signals.remove(run);
                self.status = tell_last(&mut self.pending, self.alloc, &self.table, &mut self.sink);
                over_told(self.status)
            }
            TurnAnswer::Again(ticket) => After::Again(ticket, seat),
            TurnAnswer::Refused(ticket, told, trouble) => {
                drop(told);
                self.status = Some(Stop::from(trouble));
                self.put_back(ticket, seat);
                After::Stopped
            }
        }
    }

    /// Whether the next line settles.
    fn settles_next(&self) -> bool
        ensures { IsTrue result ↔ SettlesNext self.now.left }
    {
        matches!(self.left.front(), Some(Command::Settle))
    }

    /// Whether a line may come that is the next one: where it settles there is nothing left to do.
    fn may_come(&self) -> bool
        ensures { IsTrue result ↔ MayCome self.now.left self.now.table.state }
    {
        !self.settles_next() || self.table.quiet()
    }

    /// Whether a line is left that can't come yet.
    fn must_wait(&self) -> bool
        ensures { MatchBool result (MustWait self.now.left self.now.table.state)
            (self.now.left ≢ [] → MayCome self.now.left self.now.table.state) }
    {
        !self.left.is_empty() && !self.may_come()
    }

    /// Whether all that may start is driven to its end before the next line: none is left, or it
    /// settles. It takes no memory. Where no ticket is out, no run is unreturned while the session goes
    /// on, and no worker is away; and each line that is left may be asked.
    pub fn drains_first(&self) -> bool
        ensures drains { result ≡ drains_first self.now.left }
        ensures askable { AllByRecursion IsAskable self.now.left }
        ensures rest { self.now.table.roll ≡ [] → IsBetweenRuns self.now }
    {
        self.left.is_empty() || self.settles_next()
    }

    /// Whether the session is over: it has stopped early, or no line is left and there is nothing left
    /// to do. It takes no memory.
    pub fn over(&self) -> Option<Over<M>>
        ensures { IsSome result ↔ IsSessionOver self.now }
    {
        if self.has_ended() {
            Some(Over { of: PhantomData })
        } else {
            None
        }
    }

    /// Whether a work may start. It takes no memory.
    pub fn has_startable(&self) -> bool
        ensures { MatchBool result (IsSome (first_of self.now.table.state)) (first_of self.now.table.state ≡ None) }
    {
        self.table.has_startable()
    }

    /// Whether nothing may start and no run is unreturned. It takes no memory.
    pub fn is_quiet(&self) -> bool
        ensures { IsTrue result ↔ IsQuiet self.now.table.state }
    {
        self.table.quiet()
    }

    /// Whether the session has stopped early, or no line is left and there is nothing left to do.
    fn has_ended(&self) -> bool
        ensures { IsTrue result ↔ IsSessionOver self.now }
    {
        self.status.is_some() || (self.left.is_empty() && self.table.quiet())
    }

    /// The number of the next line, from 1; none where no line is left. It takes no memory.
    pub fn next_line(&self) -> Option<u32>
        ensures none { IsNone result ↔ (self.now.left ≡ []) }
        ensures some { IsSome result → result ≡ Some (self.now.line + 1) }
    {
        if self.left.is_empty() {
            None
        } else {
            Some(self.line + 1)
        }
    }

    /// Writes what is pending, and hands everything back. No ticket is out, and while the session goes
    /// on no line is left and nothing to do.
    pub fn finish(self) -> Ended<K, W, B>
        requires none_out { self.table.roll ≡ [] }
        requires lines { self.status ≡ None → self.left ≡ [] }
        requires quiet { self.status ≡ None → IsQuiet self.table.state }
        ensures session { IsSessionEnd (tells_of K.store W.given W.faults B.kind_of B.diary_of)
            M.inputs result }
        ensures back { IsHandedBack B.kind_of self result }
        ensures written { IsWrittenOut (tells_of K.store W.given W.faults B.kind_of B.diary_of)
            self result }
        ensures done { result.status ≡ Status.Done → self.status ≡ None }
    {
        let Book {
            alloc,
            table,
            bench,
            left,
            line: _,
            signals: _,
            mut pending,
            mut sink,
            status,
            of: _,
        } = self;
        drop(left);
        let written = tell_rest(&mut pending, alloc, &table, &mut sink);
        let status = status_after(status, written);
        let TableEnd {
            first,
            last,
            log,
            keeper,
        } = table.end();
        Ended {
            status,
            began: true,
            at_opening: false,
            first,
            log,
            last,
            keeper,
            sink,
            hands: bench.back(),
        }
    }
}
