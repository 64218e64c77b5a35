//! The engine: the state, the keeper of its rows, and the roll of the runs that are out.
ghost use Rattle.std.specs.Prelude.{◌≡◌, ◌≢◌, ◌↔◌, ◌++◌, ◌∷◌, ◌+◌, ◌^◌, ◌<◌, [], true, false, length, Err, Ok, Some, None, IsTrue, IsSome, MatchBool, IfOk, IfErr, IfSome, OnOk, OnErr, vec_len, vec_capacity};
ghost use Rattle.std.specs.Option.{option_copied, option_map};
ghost use Rattle.wm_machine.specs.Cancelled.{work_with_id};
ghost use Rattle.wm_machine.specs.First.{first_of};
ghost use Rattle.wm_machine.specs.Outcome.{IsLegalLine};
ghost use Rattle.wm_machine.specs.declared.reply.Reply.{Reply};
ghost use Rattle.wm_keeper.specs.Store.{IsAtMost, TellsOn};
ghost use Rattle.wm_machine.specs.Opened.{AreFresh, Opened};
ghost use Rattle.wm_machine.specs.Quiet.{IsQuiet};
ghost use Rattle.wm_machine.specs.Rows.{rows_of};
ghost use Rattle.wm_machine.specs.Shown.{shown_of};
ghost use Rattle.wm_machine.specs.Step.{role_of};
ghost use Rattle.wm_machine.specs.Valid.{Valid};
ghost use Rattle.wm_machine.specs.declared.event.Event.TheVariants as event;
ghost use Rattle.wm_rows.specs.Sound.{AreSound};
ghost use Rattle.wm_changes.specs.StepChanges.{next_run_by, row_changes, IsStepOf};
ghost use Rattle.wm_steps.specs.Wakes.{IsWakeOf};
ghost use Rattle.wm_settings.specs.Builds.{ChangesNoRow, ChangesRows};
ghost use Rattle.wm_roll.specs.Parts.{without};
ghost use Rattle.wm_runs.specs.Reports.{goes_on, CountsIn, IsOut};
ghost use Rattle.wm_engine.specs.Begins.{is_at_commit, AreChangedByOpening, BeginCause, IsBeginFault, LeavesOpened, LeavesUnopened};
ghost use Rattle.wm_engine.specs.Calls.{reply_in, HasClaimed, IsClaim, IsClaimAnswer, IsFinished, IsLateAnswer, IsOneStep, IsReplied, IsReturned, IsTurnAnswer, IsTurned, IsUntouched, TroubleCause, TurnCause};
ghost use Rattle.wm_engine.specs.Engine.{beside, Beside, IsNoted};
ghost use Rattle.wm_engine.specs.Images.{IsLine, IsNoLine};
ghost use Rattle.wm_engine.specs.Parts.{IsOffRoll, NoneOf, Stands, ticket_part, WasOut};
ghost use Rattle.wm_engine.specs.Rows.{HoldsRowsOf};
ghost use Rattle.wm_engine.specs.Rolls.{given_again, IsNewOn, IsRollClaimed, IsRollReturned, IsRollTurned, roll_after, WasOutWhereTaken};

use crate::mark::Mark;
use crate::row_changes::row_changes;
use crate::ticket::{Held, Ticket, held_for};
use crate::trouble::{BeginFault, Trouble};
use std::alloc::{AllocError, Global};
use std::marker::{Model, PhantomData};
use uuid::Uuid;
use wm_changes::StepChange;
use wm_collections::{Items, Replica, both};
use wm_commands::execute;
use wm_conditions::Conditions;
use wm_keeper::{Keeper, Row};
use wm_machine::{Cause, Command, Event, Instance, Record, Reply, Run, Shown, State};
use wm_observe::{Note, step_notes};
use wm_opening::{Opening, open};
use wm_roll::Roll;
use wm_runs::{
    Claimed, Claiming, claim_first, counts_in, finish, goes_on, is_stopped, next_turn, returned,
    wants_more,
};
use wm_steps::{View, commit};
use wm_worker::Told;

/// What became of the work that was first.
pub enum Claim<M: Mark> {
    /// A run of it began.
    Run(Ticket<M>),
    /// It couldn't start.
    Failed { seq: u64, cause: Cause },
}

/// Whether nothing is startable and no run is unreturned.
fn is_quiet(view: &View) -> bool
    ensures { IsTrue result ↔ IsQuiet view.now }
{
    view.state.runs.is_empty() && view.first().is_none()
}

/// Whether a work is startable.
fn has_startable(view: &View) -> bool
    ensures { MatchBool result (IsSome (first_of view.now)) (first_of view.now ≡ None) }
{
    view.first().is_some()
}

/// A copy of the reply in the event of a line.
fn reply_in(alloc: Global, event: &Event) -> Result<Reply, AllocError>
    requires { IsSome (reply_in event.now) }
    ensures { IfOk result (λ reply. reply_in event.now ≡ Some reply) }
{
    match event {
        Event::Command { reply, .. } => reply.replica(alloc),
        _ => unreachable!(),
    }
}

/// What a command comes to, with a copy of its reply.
fn replied(
    alloc: Global,
    view: &View,
    line: u32,
    command: Command,
) -> Result<(StepChange, Reply), AllocError>
    requires legal { IsLegalLine view.now command }
    ensures { IfOk result (λ made. IsReplied view.entry.now line command made.0 made.1) }
{
    let change = execute(alloc, view, line, command)?;
    let reply = reply_in(alloc, &change.event);
    both(change, reply)
}

/// What became of a run whose worker reported.
pub enum TurnAnswer<M: Mark> {
    /// It goes on: the ticket is for its next turn.
    Go(Ticket<M>),
    /// It is over, as its worker reported.
    Finished,
    /// It is over, since its worker wanted one more turn after the last.
    TimedOut,
    /// It was stopped, so the report comes too late: the run is over, and nothing else has changed.
    Late,
    /// The report isn't one on the run's turn: nothing has changed, and the ticket is as it was.
    Again(Ticket<M>),
    /// There was trouble: nothing has changed.
    Refused(Ticket<M>, Told, Trouble),
}

/// What an engine begins with: the first state, and the engine in it.
pub struct Begun<K: Keeper, M: Mark> {
    pub first: State,
    pub engine: Engine<K, M>,
}

/// What an engine hands back in the end.
#[derive(Drop)]
pub struct EngineEnd<K> {
    /// The state after its events.
    pub last: State,
    pub keeper: K,
}

/// The state, the keeper of its rows, the roll of the runs that are out, and the notes of the last
/// event. The state stands in a [`View`] with what is kept beside it. Its type keeps that the state is
/// one that the machine reaches, that the keeper holds its rows, where it tells them, and that each
/// part on the roll has the number, the instance and the kind of a run of the state. A contract sees
/// state, notes and keeper, and the parts on the roll.
///
/// Each call makes at most one event, and puts it behind a list of the caller's, which has room for
/// it. It takes all its memory first, then commits the rows that change, and changes the state last:
/// so nothing can fail after a commit, and where there is trouble nothing has changed. The return of a
/// run that was stopped takes none. No event is kept, so what an engine has is no more after many
/// events than what its state needs.
///
/// A clause of a call is that of a table, whatever the first state was, of which the engine keeps
/// nothing (`Beside`).
pub struct Engine<K: Keeper, M: Mark> {
    alloc: Global,
    view: View,
    notes: Items<Note>,
    keeper: K,
    roll: Roll,
    of: PhantomData<M>,
}

impl<K: Keeper, M: Mark> Model for Engine<K, M> {
    ghost use Rattle.wm_engine.specs.EngineInvariant.{EngineInvariant};
    ghost use Rattle.wm_engine.specs.EngineState.{EngineState};

    ghost Value = { EngineState K };

    ghost view = { λ e. record { state = e.view; notes = e.notes; keeper = e.keeper; roll = e.roll.parts } };

    ghost invariant = { λ e. EngineInvariant M.inputs e.view (K.store e.keeper) e.roll };
}

impl<K: Keeper, M: Mark> Engine<K, M> {
    /// Opens the rows that the keeper loaded, with these instances: what was running waits again. The
    /// rows that change by that are committed at once, and nothing is where none does.
    ///
    /// A refusal gives the keeper back. It is `Bad` exactly where the rows aren't sound, with the first
    /// one that has a fault; `KeeperFault` or `CommitMemory` where the commit is refused, after which
    /// the rows held are as they were; or `Memory` before it, after which the keeper is as it was.
    pub fn begin(
        alloc: Global,
        keeper: K,
        rows: Vec<Row>,
        instances: Items<Instance>,
        roll: Roll,
    ) -> Result<Begun<K, M>, (K, BeginFault)>
        requires rows { IfSome (K.store keeper).rows (λ held. rows.items ≡ held) }
        requires instances { AreFresh instances }
        requires roll { roll.parts ≡ [] }
        requires given_store { TellsOn M.inputs.store (K.store keeper) }
        requires given_roll { roll.table_id ≡ M.inputs.roll }
        ensures opened { IfOk result (λ begun. Opened rows.items instances begun.first) }
        ensures sound { OnOk result (AreSound rows.items) }
        ensures state { IfOk result (λ begun. begun.engine.state ≡ begun.first) }
        ensures notes { IfOk result (λ begun. begun.engine.notes ≡ []) }
        ensures roll { IfOk result (λ begun. begun.engine.roll ≡ []) }
        ensures held { IfOk result (λ begun. HoldsRowsOf begun.first (K.store begun.engine.keeper)) }
        ensures tells_on { IfOk result (λ begun. TellsOn (K.store keeper) (K.store begun.engine.keeper)) }
        ensures only_changed { IfOk result (λ begun. rows_of begun.first ≡ rows.items → begun.engine.keeper ≡ keeper) }
        ensures images { IfOk result (λ begun. LeavesOpened K.store rows.items keeper (beside begun.first begun.engine [])) }
        ensures bad { IfErr result (λ refused. IsBeginFault rows.items refused.1) }
        ensures at_commit { IfErr result (λ refused. is_at_commit refused.1 ≡ true → AreChangedByOpening rows.items instances) }
        ensures kept { IfErr result (λ refused. IsAtMost (K.store keeper).rows (K.store refused.0).rows) }
        ensures tells_on_err { IfErr result (λ refused. TellsOn (K.store keeper) (K.store refused.0)) }
        ensures images_err { IfErr result (LeavesUnopened K.store rows.items instances keeper) }
        ensures cause { IfOk result (λ begun. BeginCause K.store keeper (Ok (beside begun.first begun.engine []))) }
        ensures cause_err { IfErr result (λ refused. BeginCause K.store keeper (Err refused)) }
    {
        let opening = match open(alloc, &rows, instances) {
            Ok(opening) => opening,
            Err(fault) => return Err((keeper, BeginFault::from(fault))),
        };
        let Opening {
            first,
            view,
            changes,
        } = opening;
        let mut keeper = keeper;
        match commit(&mut keeper, &changes) {
            Ok(()) => Ok(Begun {
                first,
                engine: Engine {
                    alloc,
                    view,
                    notes: Items::new(alloc),
                    keeper,
                    roll,
                    of: PhantomData,
                },
            }),
            Err(fault) => {
                let trouble = Trouble::from(fault);
                Err((keeper, BeginFault::from(trouble)))
            }
        }
    }

    /// Executes the command of a line, in one event, which has its reply. A command that changes no row
    /// leaves the keeper as it was.
    pub fn execute(
        &mut self,
        line: u32,
        command: Command,
        events: &mut Vec<Event>,
    ) -> Result<(), Trouble>
        requires legal { IsLegalLine self.old.state command }
        requires room { vec_len events.old < vec_capacity events.old }
        ensures ok { OnOk result (Beside (λ old new. (reply : Reply)
            × IsOneStep K.store (event.Command line command reply) old new) self.old events.old.items self.new events.new.items) }
        ensures err { OnErr result (Beside (IsUntouched K.store (IsLine line command))
            self.old events.old.items self.new events.new.items) }
        ensures cause { TroubleCause result (K.store self.old.keeper).faults (K.store self.new.keeper).faults }
        ensures untouched_keeper { ChangesNoRow self.old.state command
            → self.new.keeper ≡ self.old.keeper }
        ensures keeper_fault { result ≡ Err Trouble.KeeperFault
            → ChangesRows self.old.state command }
        ensures roll { self.new.roll ≡ self.old.roll }
        ensures noted { IsNoted self.old events.old.items self.new events.new.items }
        ensures capacity { vec_capacity events.new ≡ vec_capacity events.old }
    {
        self.look_ahead(&command);
        let change = execute(self.alloc, &self.view, line, command)?;
        self.make(change, events)
    }

    /// Looks ahead of a command, so that it finds what comes last of the works that it appends to.
    fn look_ahead(&mut self, command: &Command)
        ensures { self.new ≡ self.old }
    {
        self.view.look_ahead(command);
    }

    /// Executes the command of a line, in one event, and answers a copy of its reply, which is made
    /// before the commit. A command that changes no row leaves the keeper as it was.
    pub fn command(
        &mut self,
        line: u32,
        command: Command,
        events: &mut Vec<Event>,
    ) -> Result<Reply, Trouble>
        requires legal { IsLegalLine self.old.state command }
        requires room { vec_len events.old < vec_capacity events.old }
        ensures ok { IfOk result (λ reply. Beside (IsOneStep K.store (event.Command line command reply))
            self.old events.old.items self.new events.new.items) }
        ensures err { OnErr result (Beside (IsUntouched K.store (IsLine line command))
            self.old events.old.items self.new events.new.items) }
        ensures cause { TroubleCause result (K.store self.old.keeper).faults (K.store self.new.keeper).faults }
        ensures untouched_keeper { ChangesNoRow self.old.state command
            → self.new.keeper ≡ self.old.keeper }
        ensures keeper_fault { result ≡ Err Trouble.KeeperFault
            → ChangesRows self.old.state command }
        ensures roll { self.new.roll ≡ self.old.roll }
        ensures noted { IsNoted self.old events.old.items self.new events.new.items }
        ensures capacity { vec_capacity events.new ≡ vec_capacity events.old }
    {
        self.look_ahead(&command);
        let (change, reply) = replied(self.alloc, &self.view, line, command)?;
        match self.make(change, events) {
            Ok(()) => Ok(reply),
            Err(trouble) => {
                drop(reply);
                Err(trouble)
            }
        }
    }

    /// Starts the work that is first, in one event: on the idle instance of its class, and then the
    /// run's part stands on the roll, or as a work that can't start. None where nothing is startable.
    /// Where runs have no further number, it is answered as want of memory.
    pub fn claim(&mut self, events: &mut Vec<Event>) -> Result<Option<Claim<M>>, Trouble>
        requires room { vec_len events.old < vec_capacity events.old }
        ensures ok { IfOk result (λ claim. Beside (IsClaimAnswer K.store claim)
            self.old events.old.items self.new events.new.items) }
        ensures err { OnErr result (Beside (IsUntouched K.store IsNoLine)
            self.old events.old.items self.new events.new.items) }
        ensures cause { TroubleCause result (K.store self.old.keeper).faults (K.store self.new.keeper).faults }
        ensures roll { IsRollClaimed result self.old.roll self.new.roll }
        ensures noted { IsNoted self.old events.old.items self.new events.new.items }
        ensures capacity { vec_capacity events.new ≡ vec_capacity events.old }
    {
        let Some(claiming) = claim_first(self.alloc, &self.view)? else {
            return Ok(None);
        };
        let Claiming { change, claimed } = claiming;
        match self.make_start(change, events) {
            Ok(()) => Ok(Some(self.claim_of(claimed))),
            Err(trouble) => {
                drop(claimed);
                Err(trouble)
            }
        }
    }

    /// Ends the turn of a run as its worker told, in one event: the run goes on, or is over and off
    /// the roll. Where it goes on, the keeper isn't called. Where the run was stopped, the report comes
    /// too late, whatever it says: the run is over, which takes no memory and doesn't call the keeper.
    /// Where it wasn't, and the report isn't on its turn, or the worker was cut, nothing changes.
    pub fn turn(&mut self, ticket: Ticket<M>, told: Told, events: &mut Vec<Event>) -> TurnAnswer<M>
        requires room { self.old.state.runs ≢ [] → vec_len events.old < vec_capacity events.old }
        ensures answer { Beside (IsTurnAnswer K.store ticket told result)
            self.old events.old.items self.new events.new.items }
        ensures cause { TurnCause result (K.store self.old.keeper).faults (K.store self.new.keeper).faults }
        ensures roll { IsRollTurned ticket result self.old.roll self.new.roll }
        ensures out { WasOutWhereTaken self.old.state self.old.roll ticket result }
        ensures noted { IsNoted self.old events.old.items self.new events.new.items }
        ensures capacity { vec_capacity events.new ≡ vec_capacity events.old }
    {
        if is_stopped(&self.view, ticket.task().run) {
            drop(told);
            self.return_stopped(ticket, events);
            return TurnAnswer::Late;
        }
        if !counts_in(&self.view, ticket.task().run, &told) {
            drop(told);
            return TurnAnswer::Again(ticket);
        }
        let held = self.take(ticket);
        if goes_on(&told) {
            self.go_on(held, told, events)
        } else {
            self.end_run(held, told, events)
        }
    }

    /// Takes the ticket of a run that was stopped, in one event: the run is over, and off the roll, and
    /// nothing else changes. The ticket comes back exactly where its run wasn't stopped. It takes no
    /// memory, and the keeper isn't called.
    pub fn late(&mut self, ticket: Ticket<M>, events: &mut Vec<Event>) -> Result<(), Ticket<M>>
        requires room { self.old.state.runs ≢ [] → vec_len events.old < vec_capacity events.old }
        ensures answer { Beside (IsLateAnswer K.store ticket result)
            self.old events.old.items self.new events.new.items }
        ensures noted { IsNoted self.old events.old.items self.new events.new.items }
        ensures capacity { vec_capacity events.new ≡ vec_capacity events.old }
    {
        if !is_stopped(&self.view, ticket.task().run) {
            return Err(ticket);
        }
        self.return_stopped(ticket, events);
        Ok(())
    }

    /// Takes a ticket without an event, after a trouble that ends the session. Its run stays in the
    /// state, and is off the roll.
    pub fn take_back(&mut self, ticket: Ticket<M>)
        ensures engine { self.new
            ≡ record self.old { roll = without ticket.task.run self.old.roll } }
        ensures out { WasOut self.old.state self.old.roll ticket }
    {
        drop(self.take(ticket));
    }

    /// Takes a ticket, and gives it again, so that it is known to be out. It takes no memory.
    pub fn renew(&mut self, ticket: Ticket<M>) -> Ticket<M>
        ensures ticket { result ≡ ticket }
        ensures engine { self.new
            ≡ record self.old { roll = given_again (ticket_part ticket) self.old.roll } }
        ensures out { WasOut self.old.state self.old.roll ticket }
    {
        let held = self.take(ticket);
        self.issue(held)
    }

    /// Whether what a worker told counts for the run of a ticket: the run wasn't stopped, the report is
    /// on its turn, and the worker wasn't cut. It takes no memory.
    pub fn counts(&self, ticket: &Ticket<M>, told: &Told) -> bool
        ensures { IsTrue result ↔ CountsIn self.now.state ticket.now.task.run told.now }
    {
        counts_in(&self.view, ticket.task().run, told)
    }

    /// Whether nothing is startable and no run is unreturned.
    pub fn quiet(&self) -> bool
        ensures { IsTrue result ↔ IsQuiet self.now.state }
    {
        is_quiet(&self.view)
    }

    /// Whether a work is startable. It takes no memory.
    pub fn has_startable(&self) -> bool
        ensures { MatchBool result (IsSome (first_of self.now.state)) (first_of self.now.state ≡ None) }
    {
        has_startable(&self.view)
    }

    /// The runs that are unreturned. It takes no memory.
    pub fn runs(&self) -> &[Run]
        ensures { result.now ≡ self.now.state.runs }
    {
        self.view.state.runs.as_slice()
    }

    /// Whether no run is unreturned.
    pub fn at_rest(&self) -> bool
        ensures { IsTrue result ↔ (self.now.state.runs ≡ []) }
    {
        self.view.state.runs.is_empty()
    }

    /// Whether the run of this number is unreturned, and was stopped. It takes no memory.
    pub fn stopped(&self, run: u64) -> bool
        ensures { IsTrue result ↔ IsOut self.now.state run false }
    {
        is_stopped(&self.view, run)
    }

    /// The number of the next run. It takes no memory.
    pub fn next_run(&self) -> u64
        ensures { result ≡ self.now.state.next_run }
    {
        self.view.state.next_run
    }

    /// Whether only summaries are written.
    pub fn hushed(&self) -> bool
        ensures { result ≡ self.now.state.hushed }
    {
        self.view.state.hushed
    }

    /// The moment, in milliseconds.
    pub fn now(&self) -> u64
        ensures { result ≡ self.now.state.now }
    {
        self.view.state.now
    }

    /// The conditions that hold.
    pub fn conditions(&self) -> Conditions
        ensures { result ≡ self.now.state.conditions }
    {
        self.view.state.conditions
    }

    /// The moment at which the state wakes where nothing is changed in it but the moment: the least at
    /// which a work is due that waits for its moment alone. None where no work does. It takes no memory.
    pub fn wake(&self) -> Option<u64>
        ensures { IsWakeOf self.now.state result }
    {
        self.view.wake()
    }

    /// The record of an id; none where no record has it. It takes no memory.
    pub fn work(&self, id: &Uuid) -> Option<&Record>
        ensures { option_copied result ≡ work_with_id self.now.state.works id.now }
    {
        self.view.with_id(*id)
    }

    /// The state shown of the work of an id; none where no record has it. It takes no memory.
    pub fn shown(&self, id: &Uuid) -> Option<Shown>
        ensures { result ≡ option_map (shown_of self.now.state.works) (work_with_id self.now.state.works id.now) }
    {
        let work = self.view.with_id(*id)?;
        Some(self.view.shown_of(work))
    }

    /// What the observers are told of the last event; none before the first one. It takes no memory.
    pub fn last_notes(&self) -> &[Note]
        ensures { result.now ≡ self.now.notes }
    {
        self.notes.as_slice()
    }

    /// What the engine has, which is over: no ticket is out. It takes no memory.
    pub fn end(self) -> EngineEnd<K>
        requires none_out { self.roll ≡ [] }
        ensures last { result.last ≡ self.state }
        ensures keeper { result.keeper ≡ self.keeper }
        ensures valid { Valid result.last }
        ensures rows { HoldsRowsOf result.last (K.store result.keeper) }
        ensures tells_on { TellsOn M.inputs.store (K.store result.keeper) }
    {
        let Engine {
            alloc: _,
            view,
            notes: _,
            keeper,
            roll: _,
            of: _,
        } = self;
        EngineEnd {
            last: view.into_state(),
            keeper,
        }
    }
}

impl<K: Keeper, M: Mark> Engine<K, M> {
    /// What was claimed: the ticket of its run, which the state has, or that the work couldn't start.
    /// It takes no memory.
    fn claim_of(&mut self, claimed: Claimed) -> Claim<M>
        requires claimed { HasClaimed self.old.state claimed }
        requires new { IsNewOn self.old.roll claimed }
        ensures claim { IsClaim self.old.state claimed result }
        ensures engine { self.new
            ≡ record self.old { roll = roll_after self.old.roll result } }
    {
        match claimed {
            Claimed::Run { run, input } => {
                let held = held_for(&self.view, run, input);
                Claim::Run(self.issue(held))
            }
            Claimed::Failed { seq, cause } => Claim::Failed { seq, cause },
        }
    }

    /// Gives the part of a run to the roll, and makes the run's ticket. It takes no memory.
    fn issue(&mut self, held: Held) -> Ticket<M>
        requires stands { Stands self.old.state held }
        requires new { NoneOf held.task.run self.old.roll }
        ensures ticket { result ≡ held }
        ensures engine { self.new
            ≡ record self.old { roll = self.old.roll ++ ticket_part held ∷ [] } }
    {
        let token = self.roll.give(held.part());
        Ticket {
            held,
            token,
            of: PhantomData,
        }
    }

    /// Takes the part of a ticket's run off the roll, on which it stood: so its run is in the state.
    /// It takes no memory.
    fn take(&mut self, ticket: Ticket<M>) -> Held
        ensures held { result ≡ ticket }
        ensures out { WasOut self.old.state self.old.roll ticket }
        ensures engine { self.new
            ≡ record self.old { roll = without ticket.task.run self.old.roll } }
        ensures off { NoneOf ticket.task.run self.new.roll }
    {
        let Ticket { held, token, of: _ } = ticket;
        self.roll.take(token);
        held
    }

    /// Takes the ticket of a run that was stopped: the run is over, and off the roll. It takes no memory.
    fn return_stopped(&mut self, ticket: Ticket<M>, events: &mut Vec<Event>)
        requires stopped { IsOut self.old.state ticket.task.run false }
        requires room { vec_len events.old < vec_capacity events.old }
        ensures returned { Beside (IsReturned K.store ticket.task.run) self.old events.old.items self.new events.new.items }
        ensures out { WasOut self.old.state self.old.roll ticket }
        ensures roll { self.new.roll ≡ without ticket.task.run self.old.roll }
        ensures noted { IsNoted self.old events.old.items self.new events.new.items }
        ensures capacity { vec_capacity events.new ≡ vec_capacity events.old }
    {
        let held = self.take(ticket);
        let number = held.task.run;
        drop(held);
        self.make_return(number, events);
    }

    /// Makes the step by which the run of this number, which was stopped and is off the roll, is over. It
    /// takes no memory.
    fn make_return(&mut self, number: u64, events: &mut Vec<Event>)
        requires stopped { IsOut self.old.state number false }
        requires off { NoneOf number self.old.roll }
        requires room { vec_len events.old < vec_capacity events.old }
        ensures returned { Beside (IsReturned K.store number) self.old events.old.items self.new events.new.items }
        ensures roll { self.new.roll ≡ self.old.roll }
        ensures noted { IsNoted self.old events.old.items self.new events.new.items }
        ensures capacity { vec_capacity events.new ≡ vec_capacity events.old }
    {
        let change = returned(self.alloc, &self.view, number);
        let event = self.view.let_go(self.alloc, change);
        events.push_reserved(event);
        self.notes = Items::new(self.alloc);
    }

    /// Ends the turn of a run that is off the roll, for which the report counts, and which goes on.
    fn go_on(&mut self, held: Held, told: Told, events: &mut Vec<Event>) -> TurnAnswer<M>
        requires counts { CountsIn self.old.state held.task.run told }
        requires goes_on { goes_on told ≡ true }
        requires stands { Stands self.old.state held }
        requires off { NoneOf held.task.run self.old.roll }
        requires room { vec_len events.old < vec_capacity events.old }
        ensures answer { Beside (IsTurnAnswer K.store held told result) self.old events.old.items self.new events.new.items }
        ensures cause { TurnCause result (K.store self.old.keeper).faults (K.store self.new.keeper).faults }
        ensures roll { IsRollReturned held result self.old.roll self.new.roll }
        ensures noted { IsNoted self.old events.old.items self.new events.new.items }
        ensures capacity { vec_capacity events.new ≡ vec_capacity events.old }
    {
        let number = held.task.run;
        match self.advance(number, &told, events) {
            Ok(()) => {
                drop(held);
                let next = held_for(&self.view, number, told.into_input());
                TurnAnswer::Go(self.issue(next))
            }
            Err(trouble) => TurnAnswer::Refused(self.issue(held), told, trouble),
        }
    }

    /// Takes the run of this number to its next turn. The keeper isn't called.
    fn advance(&mut self, number: u64, told: &Told, events: &mut Vec<Event>) -> Result<(), Trouble>
        requires counts { CountsIn self.old.state number told.now }
        requires goes_on { goes_on told.now ≡ true }
        requires room { vec_len events.old < vec_capacity events.old }
        ensures ok { OnOk result (Beside (IsTurned K.store number told.now) self.old events.old.items self.new events.new.items) }
        ensures err { OnErr result (Beside (IsUntouched K.store IsNoLine) self.old events.old.items self.new events.new.items) }
        ensures cause { TroubleCause result (K.store self.old.keeper).faults (K.store self.new.keeper).faults }
        ensures roll { self.new.roll ≡ self.old.roll }
        ensures noted { IsNoted self.old events.old.items self.new events.new.items }
        ensures capacity { vec_capacity events.new ≡ vec_capacity events.old }
    {
        let change = next_turn(self.alloc, &self.view, number, told)?;
        self.make(change, events)
    }

    /// Ends a run that is off the roll, for which the report counts, and which doesn't go on.
    fn end_run(&mut self, held: Held, told: Told, events: &mut Vec<Event>) -> TurnAnswer<M>
        requires counts { CountsIn self.old.state held.task.run told }
        requires over { goes_on told ≡ false }
        requires stands { Stands self.old.state held }
        requires off { NoneOf held.task.run self.old.roll }
        requires room { vec_len events.old < vec_capacity events.old }
        ensures answer { Beside (IsTurnAnswer K.store held told result) self.old events.old.items self.new events.new.items }
        ensures cause { TurnCause result (K.store self.old.keeper).faults (K.store self.new.keeper).faults }
        ensures roll { IsRollReturned held result self.old.roll self.new.roll }
        ensures noted { IsNoted self.old events.old.items self.new events.new.items }
        ensures capacity { vec_capacity events.new ≡ vec_capacity events.old }
    {
        let wanted_more = wants_more(&told);
        match self.finish(held.task.run, &told, events) {
            Ok(()) => {
                drop(told);
                drop(held);
                if wanted_more {
                    TurnAnswer::TimedOut
                } else {
                    TurnAnswer::Finished
                }
            }
            Err(trouble) => TurnAnswer::Refused(self.issue(held), told, trouble),
        }
    }

    /// Ends the run of this number in one event.
    fn finish(&mut self, number: u64, told: &Told, events: &mut Vec<Event>) -> Result<(), Trouble>
        requires counts { CountsIn self.old.state number told.now }
        requires over { goes_on told.now ≡ false }
        requires off { NoneOf number self.old.roll }
        requires room { vec_len events.old < vec_capacity events.old }
        ensures ok { OnOk result (Beside (IsFinished K.store number told.now) self.old events.old.items self.new events.new.items) }
        ensures err { OnErr result (Beside (IsUntouched K.store IsNoLine) self.old events.old.items self.new events.new.items) }
        ensures cause { TroubleCause result (K.store self.old.keeper).faults (K.store self.new.keeper).faults }
        ensures roll { self.new.roll ≡ self.old.roll }
        ensures noted { IsNoted self.old events.old.items self.new events.new.items }
        ensures capacity { vec_capacity events.new ≡ vec_capacity events.old }
    {
        let change = finish(self.alloc, &self.view, number, told)?;
        self.make(change, events)
    }

    /// Makes the step of a change by which a run may begin, where runs have a further number.
    fn make_start(&mut self, change: StepChange, events: &mut Vec<Event>) -> Result<(), Trouble>
        requires step { IsStepOf self.old.state change }
        requires off { IsOffRoll (role_of change.event) self.old.roll }
        requires room { vec_len events.old < vec_capacity events.old }
        ensures ok { OnOk result (Beside (IsOneStep K.store change.event) self.old events.old.items self.new events.new.items) }
        ensures err { OnErr result (Beside (IsUntouched K.store (λ e. e ≡ change.event)) self.old events.old.items self.new events.new.items) }
        ensures cause { TroubleCause result (K.store self.old.keeper).faults (K.store self.new.keeper).faults }
        ensures roll { self.new.roll ≡ self.old.roll }
        ensures noted { IsNoted self.old events.old.items self.new events.new.items }
        ensures capacity { vec_capacity events.new ≡ vec_capacity events.old }
    {
        if self.view.state.next_run == u64::MAX {
            drop(change);
            return Err(Trouble::Memory);
        }
        self.make(change, events)
    }

    /// Makes the step of a change, and before it the notes of its event. Where it changes no row, the
    /// keeper is as it was.
    fn make(&mut self, change: StepChange, events: &mut Vec<Event>) -> Result<(), Trouble>
        requires step { IsStepOf self.old.state change }
        requires few { next_run_by change.run self.old.state.next_run < 2 ^ 64 }
        requires off { IsOffRoll (role_of change.event) self.old.roll }
        requires room { vec_len events.old < vec_capacity events.old }
        ensures ok { OnOk result (Beside (IsOneStep K.store change.event) self.old events.old.items self.new events.new.items) }
        ensures err { OnErr result (Beside (IsUntouched K.store (λ e. e ≡ change.event)) self.old events.old.items self.new events.new.items) }
        ensures cause { TroubleCause result (K.store self.old.keeper).faults (K.store self.new.keeper).faults }
        ensures untouched_keeper { row_changes change ≡ [] → self.new.keeper ≡ self.old.keeper }
        ensures no_keeper_fault { row_changes change ≡ [] → result ≢ Err Trouble.KeeperFault }
        ensures roll { self.new.roll ≡ self.old.roll }
        ensures noted { IsNoted self.old events.old.items self.new events.new.items }
        ensures capacity { vec_capacity events.new ≡ vec_capacity events.old }
    {
        let notes = step_notes(self.alloc, &self.view, &change)?;
        let changes = row_changes(self.alloc, &change)?;
        let event = self
            .view
            .step(self.alloc, change, &changes, &mut self.keeper)?;
        events.push_reserved(event);
        self.notes = notes;
        Ok(())
    }
}
