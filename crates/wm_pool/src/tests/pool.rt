//! A pool over a queue under a lock, with a condition variable by which its threads wait.
ghost use Rattle.std.specs.Prelude.{◌≡◌, ℕ, ◌+◌, ◌<◌, Bool, false, is_some, is_none};

use crate::gate::{Gate, Point};
use crate::shared::Shared;
use crate::tests::queue::{Job, Over, Queue, Step};
use std::sync::ledger::{Ledger, Share};
use std::sync::{Condvar, Mutex, Wait};

/// How many turns a job takes.
const TURNS: u32 = 3;

/// What a thread holds: its portion of the ledger, and room for the end that it was told of.
#[derive(Drop)]
pub struct Part<L: Ledger> {
    pub share: Share<L>,
    pub over: Option<Over<L>>,
    ghost backed: { 0 < share.parts },
}

/// The queue that the threads share.
pub struct Pool<'a, L: Ledger, R: Wait, G: Gate> {
    pub rt: &'a R,
    pub gate: &'a G,
    pub queue: Mutex<Queue<L>>,
    pub changed: Condvar,
}

impl<'a, L: Ledger + Send + Sync, R: Wait + Sync, G: Gate + Sync> Shared for Pool<'a, L, R, G> {
    type Work = Job;

    type Share = Part<L>;

    ghost number = { λ part. part.share.amount };

    ghost is_ended = { λ part. is_some part.over };

    ghost portion = { λ part. part.share.parts };

    fn next(&self, part: &mut Part<L>) -> Option<Job> {
        let mut queue = self.queue.lock(self.rt);
        'waiting: for _ in self.rt.forever() {
            if let Some(over) = queue.over() {
                part.over = Some(over);
                return None;
            }
            if let Some(job) = queue.claim(&mut part.share) {
                return Some(job);
            }
            queue = self.changed.wait(self.rt, queue);
        }
        unreachable!()
    }

    fn turn(&self, part: &mut Part<L>, job: Job) -> Option<Job> {
        let Job { number, turn } = job;
        self.gate.at(Point::Turn {
            run: number as u64,
            seq: number as u64,
            k: turn,
        });
        if turn < TURNS {
            return Some(Job {
                number,
                turn: turn + 1,
            });
        }
        let mut queue = self.queue.lock(self.rt);
        queue.report(&mut part.share, Job { number, turn });
        drop(queue);
        self.changed.notify_all();
        None
    }

    fn front(&self) -> bool {
        let mut queue = self.queue.lock(self.rt);
        for _ in self.rt.forever() {
            match queue.front_step() {
                Step::Went => {
                    drop(queue);
                    self.changed.notify_all();
                    return true;
                }
                Step::Ended => {
                    drop(queue);
                    self.changed.notify_all();
                    return false;
                }
                Step::NotSettled => {}
            }
            queue = self.changed.wait(self.rt, queue);
        }
        unreachable!()
    }
}
