//! The table: the first state, the log of the events since, and the engine that makes them.
ghost use Rattle.std.specs.Prelude.{◌≡◌, ◌↔◌, ◌+◌, ◌<◌, ◌≤◌, ◌^◌, [], length, true, false, Err, Some, None, IsTrue, IsSome, MatchBool, IfOk, IfErr, IfSome, OnOk, OnErr, vec_capacity};
ghost use Rattle.std.specs.Option.{option_copied, option_map};
ghost use Rattle.wm_collections.specs.Lists.{last_of};
ghost use Rattle.wm_machine.specs.Cancelled.{work_with_id};
ghost use Rattle.wm_machine.specs.First.{first_of};
ghost use Rattle.wm_machine.specs.Outcome.{IsLegalLine};
ghost use Rattle.wm_machine.specs.declared.reply.Reply.{Reply};
ghost use Rattle.wm_keeper.specs.Store.{IsAtMost, TellsOn};
ghost use Rattle.wm_machine.specs.Opened.{AreFresh, Opened};
ghost use Rattle.wm_machine.specs.Quiet.{IsQuiet};
ghost use Rattle.wm_machine.specs.Replay.{Replay};
ghost use Rattle.wm_machine.specs.Rows.{rows_of};
ghost use Rattle.wm_machine.specs.Shown.{shown_of};
ghost use Rattle.wm_machine.specs.Valid.{Valid};
ghost use Rattle.wm_observe.specs.Notes.{last_notes};
ghost use Rattle.wm_machine.specs.declared.event.Event.TheVariants as event;
ghost use Rattle.wm_rows.specs.Sound.{AreSound};
ghost use Rattle.wm_steps.specs.Wakes.{IsWakeOf};
ghost use Rattle.wm_settings.specs.Builds.{ChangesNoRow, ChangesRows};
ghost use Rattle.wm_roll.specs.Parts.{without};
ghost use Rattle.wm_runs.specs.Reports.{CountsIn, IsOut};
ghost use Rattle.wm_engine.specs.Begins.{is_at_commit, AreChangedByOpening, BeginCause, IsBeginFault, LeavesOpened, LeavesUnopened};
ghost use Rattle.wm_engine.specs.Calls.{IsClaimAnswer, IsLateAnswer, IsOneStep, IsTurnAnswer, IsUntouched, TroubleCause, TurnCause};
ghost use Rattle.wm_engine.specs.Images.{IsLine, IsNoLine};
ghost use Rattle.wm_engine.specs.Parts.{WasOut};
ghost use Rattle.wm_engine.specs.Rolls.{IsRollClaimed, IsRollTurned, WasOutWhereTaken};
ghost use Rattle.wm_engine.specs.Rows.{HoldsRowsOf};
ghost use Rattle.wm_table.specs.Table.{HasRoom};

use std::alloc::{AllocError, Global};
use std::marker::Model;
use uuid::Uuid;
use wm_collections::Items;
use wm_conditions::Conditions;
use wm_engine::{BeginFault, Begun, Claim, Engine, EngineEnd, Mark, Ticket, Trouble, TurnAnswer};
use wm_keeper::{Keeper, Row};
use wm_machine::{Command, Event, Instance, Record, Reply, Run, Shown, State};
use wm_observe::Note;
use wm_roll::Roll;
use wm_worker::Told;

/// What a table hands back in the end.
#[derive(Drop)]
pub struct TableEnd<K> {
    /// The state that the table was begun with.
    pub first: State,
    /// The state after its events.
    pub last: State,
    /// The events, in order.
    pub log: Items<Event>,
    pub keeper: K,
}

/// The first state, the log of the events since, and the [`Engine`] that makes them. Its type keeps
/// that the log replays, that the notes are those of its last event, that the keeper holds the
/// state's rows, where it tells them, and that each part on the roll has the number, the instance and
/// the kind of a run of the state. A contract sees first state, state, log and keeper, and the parts
/// on the roll.
///
/// Each call makes at most one event. It takes all its memory first, then commits the rows that
/// change, and changes the state last: so nothing can fail after a commit, and where there is
/// trouble nothing has changed. Only the return of a run that was stopped takes none: its type keeps that
/// the log has room for one event more of each run.
pub struct Table<K: Keeper, M: Mark> {
    first: State,
    engine: Engine<K, M>,
    log: Vec<Event>,
}

impl<K: Keeper, M: Mark> Model for Table<K, M> {
    ghost use Rattle.wm_engine.specs.TableState.{TableState};
    ghost use Rattle.wm_table.specs.Table.{TableInvariant};

    ghost Value = { TableState K };

    ghost view = { λ t. record { first = t.first; state = t.engine.state; log = t.log.items; keeper = t.engine.keeper; roll = t.engine.roll } };

    ghost invariant = { λ t. TableInvariant M.inputs t.first t.engine.state t.engine.notes t.log };
}

impl<K: Keeper, M: Mark> Table<K, M> {
    /// Opens the rows that the keeper loaded, with these instances: what was running waits again. The
    /// rows that change by that are committed at once, and nothing is where none does.
    ///
    /// A refusal gives the keeper back. It is `Bad` exactly where the rows aren't sound, with the first
    /// one that has a fault; `KeeperFault` or `CommitMemory` where the commit is refused, after which
    /// the rows held are as they were; or `Memory` before it, after which the keeper is as it was.
    pub fn begin(
        alloc: Global,
        keeper: K,
        rows: Vec<Row>,
        instances: Items<Instance>,
        roll: Roll,
    ) -> Result<Table<K, M>, (K, BeginFault)>
        requires rows { IfSome (K.store keeper).rows (λ held. rows.items ≡ held) }
        requires instances { AreFresh instances }
        requires roll { roll.parts ≡ [] }
        requires given_rows { rows.items ≡ M.inputs.rows }
        requires given_instances { instances ≡ M.inputs.instances }
        requires given_store { TellsOn M.inputs.store (K.store keeper) }
        requires given_roll { roll.table_id ≡ M.inputs.roll }
        ensures opened { IfOk result (λ table. Opened rows.items instances table.first) }
        ensures sound { OnOk result (AreSound rows.items) }
        ensures state { IfOk result (λ table. table.state ≡ table.first) }
        ensures log { IfOk result (λ table. table.log ≡ []) }
        ensures roll { IfOk result (λ table. table.roll ≡ []) }
        ensures held { IfOk result (λ table. HoldsRowsOf table.first (K.store table.keeper)) }
        ensures tells_on { IfOk result (λ table. TellsOn (K.store keeper) (K.store table.keeper)) }
        ensures only_changed { IfOk result (λ table. rows_of table.first ≡ rows.items → table.keeper ≡ keeper) }
        ensures images { IfOk result (LeavesOpened K.store rows.items keeper) }
        ensures bad { IfErr result (λ refused. IsBeginFault rows.items refused.1) }
        ensures at_commit { IfErr result (λ refused. is_at_commit refused.1 ≡ true → AreChangedByOpening rows.items instances) }
        ensures kept { IfErr result (λ refused. IsAtMost (K.store keeper).rows (K.store refused.0).rows) }
        ensures tells_on_err { IfErr result (λ refused. TellsOn (K.store keeper) (K.store refused.0)) }
        ensures images_err { IfErr result (LeavesUnopened K.store rows.items instances keeper) }
        ensures cause { BeginCause K.store keeper result }
    {
        match Engine::begin(alloc, keeper, rows, instances, roll) {
            Ok(begun) => {
                let Begun { first, engine } = begun;
                Ok(Table {
                    first,
                    engine,
                    log: Vec::new(alloc),
                })
            }
            Err(refused) => Err(refused),
        }
    }

    /// The engine of a table that has just begun, with the first state: what is made from then on is
    /// known to whoever keeps its events. It takes no memory.
    pub fn into_engine(self) -> Begun<K, M>
        requires { self.log ≡ [] }
        ensures first { result.first ≡ self.first }
        ensures state { result.engine.state ≡ self.first }
        ensures notes { result.engine.notes ≡ [] }
        ensures keeper { result.engine.keeper ≡ self.keeper }
        ensures roll { result.engine.roll ≡ self.roll }
        ensures opened { Opened M.inputs.rows M.inputs.instances result.first }
    {
        let Table {
            first,
            engine,
            log: _,
        } = self;
        Begun { first, engine }
    }

    /// The engine, which makes the events and keeps none of them.
    pub fn engine(&self) -> &Engine<K, M>
        ensures state { result.now.state ≡ self.now.state }
        ensures keeper { result.now.keeper ≡ self.now.keeper }
        ensures roll { result.now.roll ≡ self.now.roll }
    {
        &self.engine
    }

    /// Executes the command of a line, in one event, which has its reply. A command that changes no row
    /// leaves the keeper as it was.
    pub fn execute(&mut self, line: u32, command: Command) -> Result<(), Trouble>
        requires legal { IsLegalLine self.old.state command }
        ensures ok { OnOk result ((reply : Reply)
            × IsOneStep K.store (event.Command line command reply) self.old self.new) }
        ensures err { OnErr result (IsUntouched K.store (IsLine line command) self.old self.new) }
        ensures cause { TroubleCause result (K.store self.old.keeper).faults (K.store self.new.keeper).faults }
        ensures untouched_keeper { ChangesNoRow self.old.state command
            → self.new.keeper ≡ self.old.keeper }
        ensures keeper_fault { result ≡ Err Trouble.KeeperFault
            → ChangesRows self.old.state command }
        ensures roll { self.new.roll ≡ self.old.roll }
    {
        let runs = self.engine.runs().len();
        reserve(&mut self.log, runs)?;
        self.engine.execute(line, command, &mut self.log)
    }

    /// Executes the command of a line, in one event, and answers a copy of its reply, which is made
    /// before the commit. A command that changes no row leaves the keeper as it was.
    pub fn command(&mut self, line: u32, command: Command) -> Result<Reply, Trouble>
        requires legal { IsLegalLine self.old.state command }
        ensures ok { IfOk result (λ reply.
            IsOneStep K.store (event.Command line command reply) self.old self.new) }
        ensures err { OnErr result (IsUntouched K.store (IsLine line command) self.old self.new) }
        ensures cause { TroubleCause result (K.store self.old.keeper).faults (K.store self.new.keeper).faults }
        ensures untouched_keeper { ChangesNoRow self.old.state command
            → self.new.keeper ≡ self.old.keeper }
        ensures keeper_fault { result ≡ Err Trouble.KeeperFault
            → ChangesRows self.old.state command }
        ensures roll { self.new.roll ≡ self.old.roll }
    {
        let runs = self.engine.runs().len();
        reserve(&mut self.log, runs)?;
        self.engine.command(line, command, &mut self.log)
    }

    /// Starts the work that is first, in one event: on the idle instance of its class, and then the
    /// run's part stands on the roll, or as a work that can't start. None where nothing is startable.
    pub fn claim(&mut self) -> Result<Option<Claim<M>>, Trouble>
        ensures ok { IfOk result (λ claim. IsClaimAnswer K.store claim self.old self.new) }
        ensures err { OnErr result (IsUntouched K.store IsNoLine self.old self.new) }
        ensures cause { TroubleCause result (K.store self.old.keeper).faults (K.store self.new.keeper).faults }
        ensures roll { IsRollClaimed result self.old.roll self.new.roll }
    {
        if !self.engine.has_startable() {
            return Ok(None);
        }
        let runs = self.engine.runs().len();
        reserve(&mut self.log, runs)?;
        self.engine.claim(&mut self.log)
    }

    /// Ends the turn of a run as its worker told, in one event: the run goes on, or is over and off
    /// the roll. Where it goes on, the keeper isn't called. Where the run was stopped, the report comes
    /// too late, whatever it says: the run is over, which takes no memory and doesn't call the keeper.
    /// Where it wasn't, and the report isn't on its turn, or the worker was cut, nothing changes.
    pub fn turn(&mut self, ticket: Ticket<M>, told: Told) -> TurnAnswer<M>
        ensures answer { IsTurnAnswer K.store ticket told result self.old self.new }
        ensures cause { TurnCause result (K.store self.old.keeper).faults (K.store self.new.keeper).faults }
        ensures roll { IsRollTurned ticket result self.old.roll self.new.roll }
        ensures out { WasOutWhereTaken self.old.state self.old.roll ticket result }
    {
        match make_room(&self.engine, &mut self.log, &ticket, &told) {
            Ok(()) => self.engine.turn(ticket, told, &mut self.log),
            Err(_refused) => {
                let ticket = self.engine.renew(ticket);
                TurnAnswer::Refused(ticket, told, Trouble::Memory)
            }
        }
    }

    /// Takes the ticket of a run that was stopped, in one event: the run is over, and off the roll, and
    /// nothing else changes. The ticket comes back exactly where its run wasn't stopped. It takes no
    /// memory, and the keeper isn't called.
    pub fn late(&mut self, ticket: Ticket<M>) -> Result<(), Ticket<M>>
        ensures { IsLateAnswer K.store ticket result self.old self.new }
    {
        self.engine.late(ticket, &mut self.log)
    }

    /// Takes a ticket without an event, after a trouble that ends the session. Its run stays in the
    /// state, and is off the roll.
    pub fn take_back(&mut self, ticket: Ticket<M>)
        ensures table { self.new
            ≡ record self.old { roll = without ticket.task.run self.old.roll } }
        ensures out { WasOut self.old.state self.old.roll ticket }
    {
        self.engine.take_back(ticket);
    }

    /// Whether nothing is startable and no run is unreturned.
    pub fn quiet(&self) -> bool
        ensures { IsTrue result ↔ IsQuiet self.now.state }
    {
        self.engine.quiet()
    }

    /// Whether a work is startable. It takes no memory.
    pub fn has_startable(&self) -> bool
        ensures { MatchBool result (IsSome (first_of self.now.state)) (first_of self.now.state ≡ None) }
    {
        self.engine.has_startable()
    }

    /// The runs that are unreturned. It takes no memory.
    pub fn runs(&self) -> &[Run]
        ensures { result.now ≡ self.now.state.runs }
    {
        self.engine.runs()
    }

    /// Whether no run is unreturned.
    pub fn at_rest(&self) -> bool
        ensures { IsTrue result ↔ (self.now.state.runs ≡ []) }
    {
        self.engine.at_rest()
    }

    /// Whether the run of this number is unreturned, and was stopped. It takes no memory.
    pub fn stopped(&self, run: u64) -> bool
        ensures { IsTrue result ↔ IsOut self.now.state run false }
    {
        self.engine.stopped(run)
    }

    /// The number of the next run. It takes no memory.
    pub fn next_run(&self) -> u64
        ensures { result ≡ self.now.state.next_run }
    {
        self.engine.next_run()
    }

    /// Whether only summaries are written.
    pub fn hushed(&self) -> bool
        ensures { result ≡ self.now.state.hushed }
    {
        self.engine.hushed()
    }

    /// The moment, in milliseconds.
    pub fn now(&self) -> u64
        ensures { result ≡ self.now.state.now }
    {
        self.engine.now()
    }

    /// The conditions that hold.
    pub fn conditions(&self) -> Conditions
        ensures { result ≡ self.now.state.conditions }
    {
        self.engine.conditions()
    }

    /// The moment at which the state wakes where nothing is changed in it, and none where it doesn't. It
    /// takes no memory.
    pub fn wake(&self) -> Option<u64>
        ensures { IsWakeOf self.now.state result }
    {
        self.engine.wake()
    }

    /// The record of an id; none where no record has it. It takes no memory.
    pub fn work(&self, id: &Uuid) -> Option<&Record>
        ensures { option_copied result ≡ work_with_id self.now.state.works id.now }
    {
        self.engine.work(id)
    }

    /// The state shown of the work of an id; none where no record has it. It takes no memory.
    pub fn shown(&self, id: &Uuid) -> Option<Shown>
        ensures { result ≡ option_map (shown_of self.now.state.works) (work_with_id self.now.state.works id.now) }
    {
        self.engine.shown(id)
    }

    /// The log's last event, by which it replays to the state; none where the log is empty.
    pub fn last_event(&self) -> Option<&Event>
        ensures last { option_copied result ≡ last_of self.now.log }
        ensures replay { Replay self.now.first self.now.log self.now.state }
    {
        self.log.as_slice().last()
    }

    /// What the observers are told of the log's last event; none where the log is empty. It takes no
    /// memory.
    pub fn last_notes(&self) -> &[Note]
        ensures { result.now ≡ last_notes self.now.first self.now.log }
    {
        self.engine.last_notes()
    }

    /// What the table has, which is over: no ticket is out. It takes no memory.
    pub fn end(self) -> TableEnd<K>
        requires none_out { self.roll ≡ [] }
        ensures first { result.first ≡ self.first }
        ensures last { result.last ≡ self.state }
        ensures log { result.log ≡ self.log }
        ensures keeper { result.keeper ≡ self.keeper }
        ensures replay { Replay result.first result.log result.last }
        ensures valid { Valid result.last }
        ensures opened { Opened M.inputs.rows M.inputs.instances result.first }
        ensures rows { HoldsRowsOf result.last (K.store result.keeper) }
        ensures tells_on { TellsOn M.inputs.store (K.store result.keeper) }
    {
        let Table { first, engine, log } = self;
        let EngineEnd { last, keeper } = engine.end();
        TableEnd {
            first,
            last,
            log: Items::from_vec(log),
            keeper,
        }
    }
}

/// Makes room in a log for an event, and for one more of each of so many runs, also of one that
/// begins.
fn reserve(log: &mut Vec<Event>, runs: usize) -> Result<(), AllocError>
    requires { runs < 2 ^ 63 }
    ensures items { log.new.items ≡ log.old.items }
    ensures capacity { vec_capacity log.old ≤ vec_capacity log.new }
    ensures room { OnOk result (length log.old.items + (runs + 2) ≤ vec_capacity log.new) }
{
    log.reserve(runs + 2)
}

/// Makes room in a log for the event of a report, where it counts, and for one more of each run.
fn make_room<K: Keeper, M: Mark>(
    engine: &Engine<K, M>,
    log: &mut Vec<Event>,
    ticket: &Ticket<M>,
    told: &Told,
) -> Result<(), AllocError>
    requires room { HasRoom log.old engine.now.state.runs }
    ensures items { log.new.items ≡ log.old.items }
    ensures capacity { vec_capacity log.old ≤ vec_capacity log.new }
    ensures room { OnOk result (CountsIn engine.now.state ticket.now.task.run told.now
        → length log.old.items + (length engine.now.state.runs + 2) ≤ vec_capacity log.new) }
    ensures counts { OnErr result (CountsIn engine.now.state ticket.now.task.run told.now) }
{
    if engine.counts(ticket, told) {
        reserve(log, engine.runs().len())?;
    }
    Ok(())
}
