//! A table and the bench beside it, with the text of what was done: what one event does to all three.
ghost use Rattle.std.specs.Prelude.{◌≡◌, ◌++◌, [], IfErr, IsSome, OnOk, OnErr};
ghost use Rattle.wm_asks.specs.AskTexts.{answer_text};
ghost use Rattle.wm_bench.specs.Places.{IsAwayAt};
ghost use Rattle.wm_live.specs.Drained.{ClaimCause, IsClaimed, IsTurned, TurnCause};
ghost use Rattle.wm_live.specs.Rest.{with_back, IsAtRest, IsUnderWay};
ghost use Rattle.wm_machine.specs.Replay.{Replay};
ghost use Rattle.wm_engine.specs.Parts.{WasOut};
ghost use Rattle.wm_texts.specs.Texts.{last_text};
ghost use Rattle.wm_worker.specs.Answers.{given_of};
ghost use Rattle.wm_worker.specs.Told.{IsReportOf};

use std::alloc::Global;
use std::marker::Model;
use wm_asks::{LiveReply, answer_text};
use wm_bench::{Bench, Seated};
use wm_keeper::Keeper;
use wm_seating::give_back;
use wm_table::{Claim, Mark, Table, Ticket, Trouble, TurnAnswer};
use wm_texts::event_text;
use wm_worker::{Told, Worker};

/// What there is to drive.
pub(crate) enum Job<B, M: Mark> {
    /// A run began: its ticket and its worker.
    Run(Ticket<M>, Seated<B>),
    /// A work couldn't start.
    Failed,
    /// Nothing is startable.
    None,
    /// There was trouble.
    Stopped(Trouble),
}

/// What became of a run whose worker took a turn.
pub(crate) enum After<B, M: Mark> {
    /// It goes on, with the ticket of its next turn and the same seat.
    Go(Ticket<M>, Seated<B>),
    /// It is over, and its worker is back.
    Over,
    /// There was trouble, and the worker is back.
    Stopped(Trouble),
}

/// A table and the bench beside it, with the text of the events so far. A contract sees all three.
pub struct Stand<K: Keeper, B: Worker, M: Mark> {
    pub alloc: Global,
    pub table: Table<K, M>,
    pub bench: Bench<B>,
    pub text: Vec<u8>,
}

impl<K: Keeper, B: Worker, M: Mark> Model for Stand<K, B, M> {
    ghost use Rattle.wm_live.specs.StandState.{StandState};

    ghost Value = { StandState K B };

    ghost view = { λ s. record { table = s.table; places = s.bench; text = s.text.items } };
}

impl<K: Keeper, B: Worker, M: Mark> Stand<K, B, M> {
    /// Puts the text of the table's last event behind the text.
    pub(crate) fn tell(&mut self) -> Result<(), Trouble>
        ensures ok { OnOk result (self.new
            ≡ record self.old { text = self.old.text ++ last_text self.old.table.first self.old.table.log }) }
        ensures err { OnErr result (self.new ≡ self.old) }
        ensures memory { IfErr result (λ trouble. trouble ≡ Trouble.Memory) }
    {
        let Some(event) = self.table.last_event() else {
            return Ok(());
        };
        let text = event_text(
            self.alloc,
            event,
            self.table.last_notes(),
            self.table.hushed(),
        )?;
        self.text.extend_from_slice(&text)?;
        Ok(())
    }

    /// Puts the text of an answer that is no reply behind the text.
    pub(crate) fn note(&mut self, line: u32, answer: &LiveReply) -> Result<(), Trouble>
        ensures ok { OnOk result (self.new
            ≡ record self.old { text = self.old.text ++ answer_text line answer.now self.old.table.state.hushed }) }
        ensures err { OnErr result (self.new ≡ self.old) }
        ensures memory { IfErr result (λ trouble. trouble ≡ Trouble.Memory) }
    {
        let text = answer_text(self.alloc, line, answer, self.table.hushed())?;
        self.text.extend_from_slice(&text)?;
        Ok(())
    }

    /// Starts the work that is first, and tells it, and takes the worker of its instance from the bench.
    pub(crate) fn claim(&mut self) -> Job<B, M>
        requires { IsAtRest B.kind_of self.old }
        ensures claimed { IsClaimed B.kind_of result self.old self.new }
        ensures cause { ClaimCause result (K.store self.old.table.keeper).faults (K.store self.new.table.keeper).faults }
    {
        let claim = match self.table.claim() {
            Ok(Some(claim)) => claim,
            Ok(None) => return Job::None,
            Err(trouble) => return Job::Stopped(trouble),
        };
        match claim {
            Claim::Run(ticket) => {
                let Some(seat) = self.bench.take(ticket.instance()) else {
                    unreachable!();
                };
                match self.tell() {
                    Ok(()) => Job::Run(ticket, seat),
                    Err(trouble) => {
                        self.put_back(ticket, seat);
                        Job::Stopped(trouble)
                    }
                }
            }
            Claim::Failed { seq: _, cause } => {
                drop(cause);
                match self.tell() {
                    Ok(()) => Job::Failed,
                    Err(trouble) => Job::Stopped(trouble),
                }
            }
        }
    }

    /// Ends the turn of a run as its worker told, tells that, and puts the worker back where the run is
    /// over.
    pub(crate) fn end_turn(&mut self, ticket: Ticket<M>, seat: Seated<B>, told: Told) -> After<B, M>
        requires under_way { IsUnderWay B.kind_of ticket self.old }
        requires number { seat.number ≡ ticket.instance }
        requires kind { B.kind_of seat.worker ≡ ticket.kind }
        requires report { IsReportOf ticket.kind ticket.task ticket.k told }
        requires given { IsSome (given_of told.answer) }
        ensures turned { IsTurned B.kind_of ticket result self.old self.new }
        ensures cause { TurnCause result (K.store self.old.table.keeper).faults (K.store self.new.table.keeper).faults }
    {
        match self.table.turn(ticket, told) {
            TurnAnswer::Go(next) => match self.tell() {
                Ok(()) => After::Go(next, seat),
                Err(trouble) => {
                    self.put_back(next, seat);
                    After::Stopped(trouble)
                }
            },
            TurnAnswer::Finished | TurnAnswer::TimedOut | TurnAnswer::Late => {
                self.bench.give(seat);
                match self.tell() {
                    Ok(()) => After::Over,
                    Err(trouble) => After::Stopped(trouble),
                }
            }
            TurnAnswer::Again(..) => unreachable!(),
            TurnAnswer::Refused(ticket, told, trouble) => {
                drop(told);
                self.put_back(ticket, seat);
                After::Stopped(trouble)
            }
        }
    }

    /// Takes a ticket without an event, and puts its worker back, after a trouble.
    pub(crate) fn put_back(&mut self, ticket: Ticket<M>, seat: Seated<B>)
        requires away { WasOut self.old.table.state self.old.table.roll ticket
            → IsAwayAt seat.number (B.kind_of seat.worker) self.old.places }
        ensures { self.new ≡ with_back B.kind_of ticket seat self.old }
    {
        give_back(&mut self.table, &mut self.bench, ticket, seat);
    }

    /// The log replays: the table's type tells it. It does nothing.
    pub(crate) fn replays(&self)
        ensures { Replay self.now.table.first self.now.table.log self.now.table.state }
    {
        let _last = self.table.last_event();
    }
}
