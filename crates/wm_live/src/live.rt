//! The test driver.
ghost use Rattle.std.specs.Prelude.{◌≡◌, [], None, IfOk, IfErr, Ok, Err};
ghost use Rattle.wm_live.specs.Asking.{MayAsk};
ghost use Rattle.wm_live.specs.Drained.{IsCutShort, IsExecuted, IsToldAndDrained};
ghost use Rattle.wm_live.specs.Live.{IsAnswered, IsAskedAndAnswered, IsAskedAndEnded, IsEndFor, IsEndOf, IsInterrupted, IsOpened, IsOpenedInTrouble, LiveCause};
ghost use Rattle.wm_live.specs.Rest.{IsAtRest};
ghost use Rattle.wm_machine.specs.Outcome.{IsLegalLine};
ghost use Rattle.wm_machine.specs.Quiet.{IsQuiet};
ghost use Rattle.wm_machine.specs.Valid.{Valid};
ghost use Rattle.wm_seating.specs.Idle.{IsIdle};
ghost use Rattle.wm_engine.specs.Calls.{TroubleCause};

use crate::asked::asked;
use crate::drive::drain;
use crate::stand::Stand;
use std::alloc::Global;
use std::marker::Model;
use wm_asks::{Ask, Clock, LiveReply};
use wm_bench::{Bench, Hand};
use wm_keeper::Keeper;
use wm_machine::{Command, Reply};
use wm_seating::retire_last;
use wm_table::{Mark, Table, TableEnd, Trouble};
use wm_worker::Worker;

/// What a test driver hands back in the end.
#[derive(Drop)]
pub struct LiveEnd<K, B = Box<dyn Worker + Send>> {
    /// Why it ended, where there was trouble.
    pub trouble: Option<Trouble>,
    pub table: TableEnd<K>,
    /// The workers that are left.
    pub hands: Vec<Hand<B>>,
    /// The texts of the events, in order, and of the answers that are no replies at their places.
    pub text: Vec<u8>,
}

/// A table driven one ask after another. Its state is always quiet: nothing is startable, and no run is
/// unreturned. A contract sees the table, the places of the bench and the text.
pub struct Live<K: Keeper, B: Worker, M: Mark> {
    stand: Stand<K, B, M>,
}

impl<K: Keeper, B: Worker, M: Mark> Model for Live<K, B, M> {
    ghost use Rattle.wm_live.specs.Rest.{IsAtRest};
    ghost use Rattle.wm_live.specs.StandState.{StandState};
    ghost use Rattle.wm_machine.specs.Quiet.{IsQuiet};

    ghost Value = { StandState K B };

    ghost view = { λ l. l.stand };

    ghost invariant = { λ l. IsAtRest B.kind_of l.stand × IsQuiet l.stand.table.state };
}

impl<K: Keeper, B: Worker, M: Mark> Live<K, B, M> {
    /// Opens a table without events and without runs, beside the bench of its instances, and drives all
    /// that is startable to its end.
    pub fn open(
        alloc: Global,
        table: Table<K, M>,
        bench: Bench<B>,
    ) -> Result<Live<K, B, M>, LiveEnd<K, B>>
        requires log { table.log ≡ [] }
        requires bench { IsIdle B.kind_of table bench }
        ensures opened { IfOk result (IsOpened table) }
        ensures err { IfErr result (IsOpenedInTrouble K.store table) }
        ensures steady { IfOk result (λ live. (K.store live.table.keeper).faults ≡ (K.store table.keeper).faults) }
        ensures cause { IfErr result (λ end. LiveCause K.store table.keeper end) }
        ensures given { IfErr result (IsEndFor M.inputs K.store) }
    {
        let mut stand = Stand {
            alloc,
            table,
            bench,
            text: Vec::new(alloc),
        };
        match drain(&mut stand) {
            Ok(()) => Ok(Live { stand }),
            Err(trouble) => Err(end(stand, Some(trouble))),
        }
    }

    /// Does what is asked, in at most one event of this line, and then drives all that is startable to
    /// its end. A line's command is askable, and the clock may tell a moment more where it is read.
    pub fn ask<C: Clock>(
        self,
        line: u32,
        ask: Ask,
        clock: &mut C,
    ) -> Result<(Live<K, B, M>, LiveReply), LiveEnd<K, B>>
        requires { MayAsk ask (C.answers clock.old) }
        ensures pace { C.pace clock.new ≡ C.pace clock.old }
        ensures ok { IfOk result (λ next. IsAskedAndAnswered line ask (C.answers clock.old) (C.answers clock.new) next.1 self next.0) }
        ensures err { IfErr result (IsAskedAndEnded K.store line ask (C.answers clock.old) (C.answers clock.new) self) }
        ensures steady { IfOk result (λ next. (K.store next.0.table.keeper).faults ≡ (K.store self.table.keeper).faults) }
        ensures cause { IfErr result (λ end. LiveCause K.store self.table.keeper end) }
        ensures given { IfErr result (IsEndFor M.inputs K.store) }
    {
        match asked(&self.stand.table, ask, clock) {
            Ok(command) => self.execute(line, command),
            Err(answer) => self.answer(line, answer),
        }
    }

    /// Executes a command, and then drives all that is startable to its end.
    fn execute(
        self,
        line: u32,
        command: Command,
    ) -> Result<(Live<K, B, M>, LiveReply), LiveEnd<K, B>>
        requires { IsLegalLine self.table.state command }
        ensures ok { IfOk result (λ next. IsAnswered line (Ok command) next.1 self next.0) }
        ensures err { IfErr result (IsInterrupted K.store line (Ok command) self) }
        ensures steady { IfOk result (λ next. (K.store next.0.table.keeper).faults ≡ (K.store self.table.keeper).faults) }
        ensures cause { IfErr result (λ end. LiveCause K.store self.table.keeper end) }
        ensures given { IfErr result (IsEndFor M.inputs K.store) }
    {
        let Live { mut stand } = self;
        match execute_and_drain(&mut stand, line, command) {
            Ok(reply) => Ok((Live { stand }, LiveReply::Did(reply))),
            Err(trouble) => Err(end(stand, Some(trouble))),
        }
    }

    /// Writes an answer that is no reply.
    fn answer(
        self,
        line: u32,
        answer: LiveReply,
    ) -> Result<(Live<K, B, M>, LiveReply), LiveEnd<K, B>>
        ensures ok { IfOk result (λ next. IsAnswered line (Err answer) next.1 self next.0) }
        ensures err { IfErr result (IsInterrupted K.store line (Err answer) self) }
        ensures steady { IfOk result (λ next. (K.store next.0.table.keeper).faults ≡ (K.store self.table.keeper).faults) }
        ensures cause { IfErr result (λ end. LiveCause K.store self.table.keeper end) }
        ensures given { IfErr result (IsEndFor M.inputs K.store) }
    {
        let Live { mut stand } = self;
        match stand.note(line, &answer) {
            Ok(()) => Ok((Live { stand }, answer)),
            Err(trouble) => {
                drop(answer);
                Err(end(stand, Some(trouble)))
            }
        }
    }

    /// The text so far. It takes no memory.
    pub fn text(&self) -> &[u8]
        ensures { result.now ≡ self.now.text }
    {
        self.stand.text.as_slice()
    }

    /// Ends the driver, without trouble. It takes no memory.
    pub fn close(self) -> LiveEnd<K, B>
        ensures end { IsEndOf K.store None self result }
        ensures quiet { IsQuiet result.table.last }
        ensures given { IsEndFor M.inputs K.store result }
    {
        let Live { stand } = self;
        end(stand, None)
    }
}

/// What is handed back in the end: no ticket is out. It takes no memory.
fn end<K: Keeper, B: Worker, M: Mark>(
    stand: Stand<K, B, M>,
    trouble: Option<Trouble>,
) -> LiveEnd<K, B>
    requires none_out { stand.table.roll ≡ [] }
    ensures end { IsEndOf K.store trouble stand result }
    ensures valid { Valid result.table.last }
    ensures given { IsEndFor M.inputs K.store result }
{
    let Stand {
        alloc: _,
        table,
        bench,
        text,
    } = stand;
    LiveEnd {
        trouble,
        table: table.end(),
        hands: bench.back(),
        text,
    }
}

/// Executes the command of a line, retires a class on the bench that it retires, tells its reply, and
/// drives all that is startable to its end.
fn execute_and_drain<K: Keeper, B: Worker, M: Mark>(
    stand: &mut Stand<K, B, M>,
    line: u32,
    command: Command,
) -> Result<Reply, Trouble>
    requires rest { IsAtRest B.kind_of stand.old }
    requires legal { IsLegalLine stand.old.table.state command }
    ensures ok { IfOk result (λ reply. IsExecuted B.kind_of line command reply stand.old stand.new) }
    ensures err { IfErr result (λ trouble. IsCutShort line command trouble stand.old stand.new) }
    ensures cause { TroubleCause result (K.store stand.old.table.keeper).faults (K.store stand.new.table.keeper).faults }
{
    let reply = stand.table.command(line, command)?;
    retire_last(&stand.table, &mut stand.bench);
    match tell_and_drain(stand) {
        Ok(()) => Ok(reply),
        Err(trouble) => {
            drop(reply);
            Err(trouble)
        }
    }
}

/// Tells the reply of the table's last event, and drives all that is startable to its end.
fn tell_and_drain<K: Keeper, B: Worker, M: Mark>(stand: &mut Stand<K, B, M>) -> Result<(), Trouble>
    requires { IsIdle B.kind_of stand.old.table stand.old.places }
    ensures drained { IsToldAndDrained B.kind_of result stand.old stand.new }
    ensures cause { TroubleCause result (K.store stand.old.table.keeper).faults (K.store stand.new.table.keeper).faults }
{
    match stand.tell() {
        Ok(()) => drain(stand),
        Err(trouble) => Err(trouble),
    }
}
