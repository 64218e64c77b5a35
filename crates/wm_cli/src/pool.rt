//! The run in threads: one in front executes the lines, and the others claim works, have their
//! workers take their turns and report.
ghost use Rattle.std.specs.Prelude.{◌≡◌, ◌+◌, ◌<◌, ◌≤◌, [], All, IfOk, IsNone, is_some, map, sum};
ghost use Rattle.wm_session.specs.Ended.{IsBookEnd};
ghost use Rattle.wm_ended.specs.Tells.{tells_of};

use crate::desk::{Desk, Start};
use crate::work::{Part, Work};
use std::alloc::{AllocError, Global};
use std::hint::spin_loop;
use std::marker::Brand;
use std::sync::atomic::{AtomicU64, Ordering};
use std::sync::ledger::{Blank, Ledger, Share};
use std::sync::{Condvar, Mutex, MutexGuard, Wait};
use std::thread::{Threads, yield_now};
use wm_io::Sink;
use wm_keeper::Keeper;
use wm_pool::{Gate, Point, Shared, drive};
use wm_session::{Book, Ended, Front, run_serial};
use wm_table::Mark;
use wm_worker::Worker;

/// How often a thread asks for the lock before it sleeps until the lock is free.
const TRIES: u32 = 10;

/// How often it pauses in between, some half a millisecond, in which whoever has the lock takes many
/// turns: one that follows a turn of another thread finds nothing of the desk in its processor's memory.
const PAUSES: u32 = 10_000;

/// What the threads of a run share: the desk behind its lock, and what they wait for.
struct Pool<'a, K: Keeper, W: Sink, B: Worker, M: Mark, L: Ledger, R: Wait, G: Gate> {
    rt: &'a R,
    alloc: Global,
    gate: &'a G,
    desk: Mutex<Desk<K, W, B, M, L>>,
    /// Notified where a work may start, or the session is over.
    startable: Condvar,
    /// Notified where nothing is left to do, or the session is over.
    settled: Condvar,
    /// How many threads wait for a work. It changes while the lock is held.
    idle: AtomicU64,
}

impl<
    'a,
    K: Keeper + Send,
    W: Sink + Send,
    B: Worker + Send,
    M: Mark + Send + Sync,
    L: Ledger + Send + Sync,
    R: Wait + Sync,
    G: Gate + Sync,
> Shared for Pool<'a, K, W, B, M, L, R, G> {
    type Work = Work<B, M>;

    type Share = Part<M, L>;

    ghost number = { λ part. part.share.amount };

    ghost is_ended = { λ part. is_some part.over };

    ghost portion = { λ part. part.share.parts };

    fn next(&self, part: &mut Part<M, L>) -> Option<Work<B, M>> {
        let mut desk = self.lock();
        'waiting: for _ in self.rt.forever() {
            if let Some(over) = desk.over() {
                part.over = Some(over);
                drop(desk);
                self.wake_all();
                return None;
            }
            match desk.claim(&mut part.share) {
                Start::Begun(work) => {
                    self.wake_next(desk);
                    return Some(work);
                }
                Start::Changed => {}
                Start::Nothing => desk = self.await_work(desk),
            }
        }
        unreachable!()
    }

    /// Whoever takes the last turn of a run goes on with `next`, so it wakes nobody here.
    fn turn(&self, part: &mut Part<M, L>, mut work: Work<B, M>) -> Option<Work<B, M>> {
        self.pass_turn(&work);
        let told = work.turn(self.alloc);
        self.lock().report(&mut part.share, work, told)
    }

    fn front(&self) -> bool {
        self.pass_line();
        let mut desk = self.lock();
        for _ in self.rt.forever() {
            match desk.front_step() {
                Front::Moved => {
                    self.wake_next(desk);
                    return true;
                }
                Front::Ended | Front::Stopped => {
                    drop(desk);
                    self.wake_all();
                    return false;
                }
                Front::NotSettled => desk = self.settled.wait(self.rt, desk),
            }
        }
        unreachable!()
    }
}

impl<'a, K: Keeper, W: Sink, B: Worker, M: Mark, L: Ledger, R: Wait, G: Gate> Pool<
    'a,
    K,
    W,
    B,
    M,
    L,
    R,
    G,
> {
    /// Takes the lock. A thread that has to wait pauses, and sleeps only where that takes long.
    fn lock(&self) -> MutexGuard<'_, Desk<K, W, B, M, L>> {
        for _try in 0..TRIES {
            if let Some(desk) = self.desk.try_lock() {
                return desk;
            }
            pause();
        }
        self.desk.lock(self.rt)
    }

    /// Waits until a work may start or the session is over, with the lock let go meanwhile. Where
    /// nothing is left to do, the front may go on.
    fn await_work<'d>(
        &'d self,
        desk: MutexGuard<'d, Desk<K, W, B, M, L>>,
    ) -> MutexGuard<'d, Desk<K, W, B, M, L>> {
        if desk.is_quiet() {
            self.settled.notify_all();
        }
        self.idle.fetch_add(1, Ordering::SeqCst);
        let desk = self.startable.wait(self.rt, desk);
        self.idle.fetch_sub(1, Ordering::SeqCst);
        desk
    }

    /// Lets the lock go, and wakes a thread that waits for a work, where a work may start. That thread
    /// wakes the next one.
    fn wake_next(&self, desk: MutexGuard<'_, Desk<K, W, B, M, L>>) {
        let has_work = self.idle.load(Ordering::SeqCst) > 0 && desk.has_startable();
        drop(desk);
        if has_work {
            self.startable.notify_one();
        }
    }

    /// Wakes all threads that wait, since the session is over.
    fn wake_all(&self) {
        self.startable.notify_all();
        self.settled.notify_all();
    }

    /// Passes the gate before the next line, where one is left.
    fn pass_line(&self) {
        let next = self.lock().next_line();
        if let Some(line) = next {
            self.gate.at(Point::Front { line });
        }
    }

    /// Passes the gate before the turn of a run.
    fn pass_turn(&self, work: &Work<B, M>) {
        self.gate.at(Point::Turn {
            run: work.ticket.task().run,
            seq: work.ticket.seq(),
            k: work.ticket.k(),
        });
    }
}

/// Lets whoever has the lock take several turns, and other threads have the processor.
fn pause() {
    for _i in 0..PAUSES {
        spin_loop();
    }
    yield_now();
}

/// A portion of the ledger for one thread.
fn part<M: Mark, L: Ledger>(all: &mut Share<L>) -> Part<M, L>
    requires some { 0 < all.old.parts }
    requires idle { all.old.amount ≡ 0 }
    ensures left { all.new.parts + 1 ≡ all.old.parts }
    ensures amount { all.new.amount ≡ 0 }
    ensures one { result.share.parts ≡ 1 }
    ensures idle { result.share.amount ≡ 0 }
    ensures going { IsNone result.over }
{
    Part {
        share: all.split_off(1, 0),
        over: None,
    }
}

/// Cuts the ledger into a portion for each of so many threads.
fn cut<M: Mark, L: Ledger>(
    alloc: Global,
    all: &mut Share<L>,
    threads: u32,
) -> Result<Vec<Part<M, L>>, AllocError>
    requires whole { all.old.parts ≡ threads }
    requires idle { all.old.amount ≡ 0 }
    ensures spent { IfOk result (λ parts. (all.new.parts ≡ 0) × (all.new.amount ≡ 0)) }
    ensures whole { IfOk result (λ parts. sum (map (λ part. part.share.parts) parts.items) ≡ threads) }
    ensures idle { IfOk result (λ parts. All (λ part. part.share.amount ≡ 0) parts.items) }
    ensures going { IfOk result (λ parts. All (λ part. IsNone part.over) parts.items) }
{
    let mut parts = Vec::new(alloc);
    for _i in 0..threads {
        parts.push(part(all))?;
    }
    Ok(parts)
}

/// Puts the portions of all threads together again.
fn gather<M: Mark, L: Ledger>(all: &mut Share<L>, mut parts: Vec<Part<M, L>>)
    requires none { (all.old.parts ≡ 0) × (all.old.amount ≡ 0) }
    requires idle { All (λ part. part.share.amount ≡ 0) parts.items }
    ensures whole { all.new.parts ≡ sum (map (λ part. part.share.parts) parts.items) }
    ensures idle { all.new.amount ≡ 0 }
{
    while let Some(part) = parts.pop() {
        let Part { share, over: _ } = part;
        all.merge(share);
    }
}

/// Has so many threads drive the book, with a ledger of as many parts, until the session is over.
/// Where memory for the shares is refused, or no thread can be made, the book comes back as it was.
fn drive_counted<
    K: Keeper + Send,
    W: Sink + Send,
    B: Worker + Send,
    M: Mark + Send + Sync,
    L: Ledger + Send + Sync,
    R: Threads + Wait + Sync,
    G: Gate + Sync,
>(
    rt: &R,
    alloc: Global,
    blank: Blank,
    book: Book<K, W, B, M>,
    threads: u32,
    gate: &G,
) -> Book<K, W, B, M>
    requires name { blank.name ≡ L.name }
    requires parts { blank.parts ≡ L.parts }
    requires one_each { blank.parts ≡ threads }
    requires none_out { book.table.roll ≡ [] }
    ensures { result.table.roll ≡ [] }
{
    let (out, mut all) = blank.open::<L>();
    let Ok(parts) = cut(alloc, &mut all, threads) else {
        return book;
    };
    let pool = Pool {
        rt,
        alloc,
        gate,
        desk: Mutex::new(Desk::new(book, out)),
        startable: Condvar::new(),
        settled: Condvar::new(),
        idle: AtomicU64::new(0),
    };
    let (parts, _) = drive(rt, &pool, parts);
    gather(&mut all, parts);
    let Pool {
        rt: _,
        alloc: _,
        gate: _,
        desk,
        startable: _,
        settled: _,
        idle: _,
    } = pool;
    desk.into_inner().close(&mut all)
}

/// Executes the lines of a book with so many worker threads, 1 to 64. One thread in front executes
/// the lines, waiting where one can't come yet; the others claim works, have their workers take
/// turn after turn, and report. Once all of them have stopped, no ticket is out, and what is left is
/// done as a serial run does it; where memory for the threads' shares is refused, or no thread can be
/// made, that is all.
///
/// The gate is passed before each line and each turn, with no lock held. That the call returns isn't
/// promised, nor who comes first.
pub fn run_pool<
    K: Keeper + Send,
    W: Sink + Send,
    B: Worker + Send,
    M: Mark + Send + Sync,
    R: Threads + Wait + Sync,
    G: Gate + Sync,
>(rt: &R, alloc: Global, book: Book<K, W, B, M>, workers: u32, gate: &G) -> Ended<K, W, B>
    requires some { 0 < workers }
    requires few { workers ≤ 64 }
    requires none_out { book.table.roll ≡ [] }
    ensures { IsBookEnd (tells_of K.store W.given W.faults B.kind_of B.diary_of) M.inputs result }
{
    let blank = Blank::new(workers as u64);
    let book = drive_counted::<K, W, B, M, Brand, R, G>(rt, alloc, blank, book, workers, gate);
    run_serial(alloc, book, gate)
}
