//! What the threads of a run share under one lock: the book, with the ledger of the runs that are
//! out.
ghost use Rattle.std.specs.Prelude.{◌≡◌, ◌+◌, ◌<◌, [], false, length, IfSome};
ghost use Rattle.wm_cli.specs.Desk.{begun_in, IfBegun};
ghost use Rattle.wm_pool.specs.Shares.{count_of};

use crate::work::Work;
use std::alloc::AllocError;
use std::sync::ledger;
use std::sync::ledger::{Ledger, Share};
use wm_io::Sink;
use wm_keeper::Keeper;
use wm_session::{After, Book, Front, Job, Over};
use wm_table::Mark;
use wm_worker::{Told, Worker};

/// What became of the work that is first, of which a run is this.
pub enum Start<J> {
    /// A run of it began.
    Begun(J),
    /// It couldn't start, or the session has stopped early: there may be something else to do.
    Changed,
    /// Nothing is startable.
    Nothing,
}

/// What stands under the lock: the book, and the ledger's book of the runs that are out. Its type
/// keeps that the shares of all threads have as many runs as there are parts on the roll.
pub struct Desk<K: Keeper, W: Sink, B: Worker, M: Mark, L: Ledger> {
    book: Book<K, W, B, M>,
    out: ledger::Book<L>,
    ghost counted: { out.total ≡ length book.table.roll },
}

impl<K: Keeper, W: Sink, B: Worker, M: Mark, L: Ledger> Desk<K, W, B, M, L> {
    /// A desk with this book, in which no ticket is out.
    pub fn new(book: Book<K, W, B, M>, out: ledger::Book<L>) -> Desk<K, W, B, M, L>
        requires none_out { book.table.roll ≡ [] }
        requires none { out.total ≡ 0 }
    {
        Desk { book, out }
    }

    /// That the session is over, where it is: it has stopped early, or no line is left and there is
    /// nothing left to do.
    pub fn over(&self) -> Option<Over<M>> {
        self.book.over()
    }

    /// Whether a work may start.
    pub fn has_startable(&self) -> bool {
        self.book.has_startable()
    }

    /// Whether nothing may start and no run is out.
    pub fn is_quiet(&self) -> bool {
        self.book.is_quiet()
    }

    /// The number of the next line, from 1; none where no line is left.
    pub fn next_line(&self) -> Option<u32> {
        self.book.next_line()
    }

    /// Executes the next line.
    pub fn front_step(&mut self) -> Front {
        self.book.front_step()
    }

    /// Starts the work that is first, for the thread of this share. Its worker hasn't made ready yet.
    pub fn claim(&mut self, share: &mut Share<L>) -> Start<Work<B, M>>
        requires { 0 < share.old.parts }
        ensures amount { share.new.amount ≡ share.old.amount + begun_in result }
        ensures parts { share.new.parts ≡ share.old.parts }
        ensures fresh { IfBegun result (λ work. work.has_begun ≡ false) }
    {
        let Desk { book, out } = self;
        match book.claim() {
            Job::Run(ticket, seat, signal) => {
                out.add(share, 1);
                Start::Begun(Work {
                    ticket,
                    seat,
                    signal,
                    has_begun: false,
                })
            }
            Job::Failed | Job::Stopped => Start::Changed,
            Job::None => Start::Nothing,
        }
    }

    /// Ends the turn of a run that the thread of this share holds, as its worker told, and gives it
    /// back where it goes on, with its worker as ready as it was.
    pub fn report(
        &mut self,
        share: &mut Share<L>,
        work: Work<B, M>,
        told: Result<Told, AllocError>,
    ) -> Option<Work<B, M>>
        requires { 0 < share.old.amount }
        ensures amount { share.new.amount + 1 ≡ share.old.amount + count_of result }
        ensures parts { share.new.parts ≡ share.old.parts }
        ensures begun { IfSome result (λ back. back.has_begun ≡ work.has_begun) }
    {
        let Desk { book, out } = self;
        let Work {
            ticket,
            seat,
            signal,
            has_begun,
        } = work;
        match book.report(ticket, seat, told) {
            After::Go(ticket, seat) | After::Again(ticket, seat) => {
                Some(Work {
                    ticket,
                    seat,
                    signal,
                    has_begun,
                })
            }
            After::Over | After::Stopped => {
                out.sub(share, 1);
                None
            }
        }
    }

    /// The book, in which no ticket is out: all shares are together, and have no run.
    pub fn close(self, all: &mut Share<L>) -> Book<K, W, B, M>
        requires whole { all.old.parts ≡ L.parts }
        requires idle { all.old.amount ≡ 0 }
        ensures { result.table.roll ≡ [] }
    {
        let Desk { book, mut out } = self;
        out.audit(all);
        book
    }
}
