//! A queue of jobs, which stands under a lock, and the tokens by which its threads are known.
ghost use Rattle.std.specs.Prelude.{◌≡◌, ◌+◌, ◌<◌};
ghost use Rattle.wm_pool.specs.Shares.{count_of};

use std::marker::PhantomData;
use std::sync::ledger::{Book, Ledger, Share};

/// A job that was claimed and must be reported.
pub struct Job {
    /// Its number, from 1.
    pub number: u32,
    /// How many of its turns were taken.
    pub turn: u32,
}

/// That a queue was over. Only a queue makes one.
#[derive(Drop)]
pub struct Over<L: Ledger> {
    of: PhantomData<L>,
}

/// What a step at the front comes to.
pub enum Step {
    /// A line was executed.
    Went,
    /// The line waits until all jobs are reported.
    NotSettled,
    /// No line is left.
    Ended,
}

/// Lines, each of which puts in two jobs once the queue is settled; the jobs that wait; and those
/// that are out, which the ledger counts.
#[derive(Drop)]
pub struct Queue<L: Ledger> {
    lines: u32,
    waiting: u32,
    claimed: u32,
    /// How many jobs are out.
    pub out: u32,
    /// How many were reported. It wraps.
    pub reported: u32,
    count: Book<L>,
    ghost counted: { count.total ≡ out },
}

impl<L: Ledger> Queue<L> {
    /// A queue of these lines, with no job.
    pub fn new(lines: u32, count: Book<L>) -> Queue<L>
        requires { count.total ≡ 0 }
    {
        Queue {
            lines,
            waiting: 0,
            claimed: 0,
            out: 0,
            reported: 0,
            count,
        }
    }

    /// Whether no job waits or is out.
    fn is_settled(&self) -> bool {
        self.waiting == 0 && self.out == 0
    }

    /// Where the queue is over: no line is left, and it is settled.
    pub fn over(&self) -> Option<Over<L>> {
        if self.lines == 0 && self.is_settled() {
            Some(Over { of: PhantomData })
        } else {
            None
        }
    }

    /// Executes one line.
    pub fn front_step(&mut self) -> Step {
        if self.lines == 0 {
            return Step::Ended;
        }
        if !self.is_settled() {
            return Step::NotSettled;
        }
        self.lines -= 1;
        self.waiting = 2;
        Step::Went
    }

    /// The next job, where one waits.
    pub fn claim(&mut self, mine: &mut Share<L>) -> Option<Job>
        requires { 0 < mine.old.parts }
        ensures amount { mine.new.amount ≡ mine.old.amount + count_of result }
        ensures parts { mine.new.parts ≡ mine.old.parts }
    {
        let Queue {
            lines: _,
            waiting,
            claimed,
            out,
            reported: _,
            count,
        } = self;
        let left = waiting.checked_sub(1)?;
        let more = out.checked_add(1)?;
        *waiting = left;
        *claimed = claimed.wrapping_add(1);
        count.add(mine, 1);
        *out = more;
        Some(Job {
            number: *claimed,
            turn: 0,
        })
    }

    /// Takes a job back that is done.
    pub fn report(&mut self, mine: &mut Share<L>, job: Job)
        requires { 0 < mine.old.amount }
        ensures amount { mine.new.amount + 1 ≡ mine.old.amount }
        ensures parts { mine.new.parts ≡ mine.old.parts }
    {
        let Queue {
            lines: _,
            waiting: _,
            claimed: _,
            out,
            reported,
            count,
        } = self;
        let Job { number: _, turn: _ } = job;
        count.sub(mine, 1);
        *out -= 1;
        *reported = reported.wrapping_add(1);
    }

    /// Once all shares are together and have no job, no job is out.
    pub fn last(&mut self, all: &mut Share<L>)
        requires whole { all.old.parts ≡ L.parts }
        requires idle { all.old.amount ≡ 0 }
        ensures out { self.new.out ≡ 0 }
        ensures reported { self.new.reported ≡ self.old.reported }
    {
        self.count.audit(all);
    }
}
