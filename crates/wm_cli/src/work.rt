//! What each thread of a run holds: a run that it drives, and its portion of the ledger.
ghost use Rattle.std.specs.Prelude.{◌≡◌, ◌<◌, true, IfOk, OnOk};
ghost use Rattle.wm_cli.specs.Taken.{diary_begun};
ghost use Rattle.wm_worker.specs.Diary.{diary_with, turn_entries};

use std::alloc::{AllocError, Global};
use std::sync::ledger::{Ledger, Share};
use wm_bench::Seated;
use wm_session::Over;
use wm_table::{Mark, Ticket};
use wm_worker::{Signal, Told, Worker};

/// A run that a thread drives: its ticket, the worker of its instance, and its signal. It has to be
/// spent.
pub struct Work<B: Worker, M: Mark> {
    pub ticket: Ticket<M>,
    pub seat: Seated<B>,
    pub signal: Signal,
    /// Whether the worker has made ready for the run.
    pub has_begun: bool,
    ghost number: { seat.number ≡ ticket.instance },
    ghost kind: { B.kind_of seat.worker ≡ ticket.kind },
    ghost own_signal: { signal.run ≡ ticket.task.run },
}

impl<B: Worker, M: Mark> Work<B, M> {
    /// Has the worker take the turn that the ticket is for, once. Before its first one it makes ready. A
    /// worker that tells a diary has written down just that.
    pub fn turn(&mut self, alloc: Global) -> Result<Told, AllocError>
        ensures ticket { self.new.ticket ≡ self.old.ticket }
        ensures begun { OnOk result (self.new.has_begun ≡ true) }
        ensures written { IfOk result (λ told. B.diary_of self.new.seat.worker
            ≡ diary_with (turn_entries self.old.ticket.task.run self.old.ticket.k told.answer)
            (diary_begun self.old.has_begun self.old.ticket.task.run (B.diary_of self.old.seat.worker))) }
    {
        self.make_ready(alloc)?;
        self.seat
            .turn(alloc, self.ticket.task(), self.ticket.k(), &self.signal)
    }

    /// Has the worker make ready for the run, unless it has.
    fn make_ready(&mut self, alloc: Global) -> Result<(), AllocError>
        ensures ticket { self.new.ticket ≡ self.old.ticket }
        ensures begun { OnOk result (self.new.has_begun ≡ true) }
        ensures written { OnOk result (B.diary_of self.new.seat.worker
            ≡ diary_begun self.old.has_begun self.old.ticket.task.run (B.diary_of self.old.seat.worker)) }
    {
        if !self.has_begun {
            self.seat.begin(alloc, self.ticket.task())?;
            self.has_begun = true;
        }
        Ok(())
    }
}

/// What a thread holds beside its works: its portion of the ledger, and that the session was over,
/// once it was told that.
#[derive(Drop)]
pub struct Part<M: Mark, L: Ledger> {
    pub share: Share<L>,
    pub over: Option<Over<M>>,
    ghost backed: { 0 < share.parts },
}
