//! That `drive` returns, and that its threads take turns at the same time, with a pool as a program
//! has it: a value under a lock, a condition variable and a ledger.
ghost use Rattle.std.specs.Prelude.{◌≡◌, ◌+◌, ◌<◌, ◌^◌, All, IfOk, IsNone, map, sum, vec_len};

mod pool;
mod queue;

use crate::driving::drive;
use crate::gate::{Gate, OpenGate, Point};
use crate::tests::pool::{Part, Pool};
use crate::tests::queue::Queue;
use std::alloc::{AllocError, Global};
use std::marker::Brand;
use std::sync::atomic::{AtomicBool, AtomicU64, Ordering};
use std::sync::ledger::{Blank, Ledger, Share};
use std::sync::{Condvar, Mutex, Wait};
use std::test::Fail;
use std::thread;
use std::thread::Threads;

/// A part with one of the ledger's parts and no job.
fn part<L: Ledger>(all: &mut Share<L>) -> Part<L>
    requires some { 0 < all.old.parts }
    requires idle { all.old.amount ≡ 0 }
    ensures left { all.new.parts + 1 ≡ all.old.parts }
    ensures amount { all.new.amount ≡ 0 }
    ensures one { result.share.parts ≡ 1 }
    ensures idle { result.share.amount ≡ 0 }
    ensures going { IsNone result.over }
{
    Part {
        share: all.split_off(1, 0),
        over: None,
    }
}

/// The whole ledger, cut for as many threads.
fn cut<L: Ledger>(
    alloc: Global,
    all: &mut Share<L>,
    threads: u32,
) -> Result<Vec<Part<L>>, AllocError>
    requires whole { all.old.parts ≡ threads }
    requires idle { all.old.amount ≡ 0 }
    ensures spent { IfOk result (λ parts. (all.new.parts ≡ 0) × (all.new.amount ≡ 0)) }
    ensures whole { IfOk result (λ parts. sum (map (λ part. part.share.parts) parts.items) ≡ threads) }
    ensures idle { IfOk result (λ parts. All (λ part. part.share.amount ≡ 0) parts.items) }
    ensures going { IfOk result (λ parts. All (λ part. IsNone part.over) parts.items) }
{
    let mut parts = Vec::new(alloc);
    for _i in 0..threads {
        parts.push(part(all))?;
    }
    Ok(parts)
}

/// All parts together again.
fn gather<L: Ledger>(all: &mut Share<L>, parts: Vec<Part<L>>)
    requires none { (all.old.parts ≡ 0) × (all.old.amount ≡ 0) }
    requires idle { All (λ part. part.share.amount ≡ 0) parts.items }
    ensures whole { all.new.parts ≡ sum (map (λ part. part.share.parts) parts.items) }
    ensures idle { all.new.amount ≡ 0 }
{
    let mut parts = parts;
    while let Some(part) = parts.pop() {
        let Part { share, over: _ } = part;
        all.merge(share);
    }
}

/// Runs a queue of these lines by as many threads, and gives how many jobs were reported, and how
/// many are out at the end.
fn run<L: Ledger + Send + Sync, R: Threads + Wait + Sync, G: Gate + Sync>(
    rt: &R,
    alloc: Global,
    blank: Blank,
    gate: &G,
    lines: u32,
    threads: u32,
) -> Result<(u32, u32), AllocError>
    requires name { blank.name ≡ L.name }
    requires parts { blank.parts ≡ L.parts }
    requires one_each { blank.parts ≡ threads }
    ensures { IfOk result (λ told. told.1 ≡ 0) }
{
    let (count, mut all) = blank.open::<L>();
    let parts = cut(alloc, &mut all, threads)?;
    let pool = Pool {
        rt,
        gate,
        queue: Mutex::new(Queue::new(lines, count)),
        changed: Condvar::new(),
    };
    let (parts, _) = drive(rt, &pool, parts);
    gather(&mut all, parts);
    let Pool {
        rt: _,
        gate: _,
        queue,
        changed: _,
    } = pool;
    let mut queue = queue.into_inner();
    queue.last(&mut all);
    Ok((queue.reported, queue.out))
}

/// `run` with two threads, over a ledger of two parts.
fn run_two<R: Threads + Wait + Sync, G: Gate + Sync>(
    rt: &R,
    alloc: Global,
    gate: &G,
    lines: u32,
) -> Result<(u32, u32), AllocError>
    ensures { IfOk result (λ told. told.1 ≡ 0) }
{
    run::<Brand, R, G>(rt, alloc, Blank::new(2), gate, lines, 2)
}

/// Holds each thread at a turn 0 until two have come to one, for a limited number of polls.
#[derive(Drop)]
struct Meeting {
    came: AtomicU64,
    missed: AtomicBool,
}

impl Gate for Meeting {
    fn at(&self, point: Point) {
        let Point::Turn { k: 0, .. } = point else {
            return;
        };
        self.came.fetch_add(1, Ordering::SeqCst);
        for _i in 0..1_000_000u32 {
            if self.came.load(Ordering::SeqCst) >= 2 {
                return;
            }
            thread::yield_now();
        }
        self.missed.store(true, Ordering::SeqCst);
    }
}

#[test]
fn all_jobs_are_reported(rt: HostRuntime) -> Result<(), Fail> {
    let told = run_two(&rt, rt.alloc(), &OpenGate, 20)?;
    assert_eq!(rt; told, (40, 0));
    Ok(())
}

#[test]
fn two_jobs_are_turned_at_once(rt: HostRuntime) -> Result<(), Fail> {
    let meeting = Meeting {
        came: AtomicU64::new(0),
        missed: AtomicBool::new(false),
    };
    let told = run_two(&rt, rt.alloc(), &meeting, 1)?;
    assert_eq!(rt; told, (2, 0));
    assert!(rt;
        !meeting.missed.load(Ordering::SeqCst),
        "the two turns didn't meet"
    );
    Ok(())
}
