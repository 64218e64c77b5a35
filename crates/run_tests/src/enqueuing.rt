//! A program whose own threads enqueue, each with a pass of one desk. `docs/LIBRARY.md` goes through it.
ghost use Rattle.std.specs.Prelude.{◌≡◌, [], false, map, IsSome};
ghost use Rattle.wm_callers.specs.Closing.{fresh_passes};
ghost use Rattle.wm_callers.specs.Openings.{inputs_of};
ghost use Rattle.wm_keeper.specs.Memory.{store_of};
ghost use Rattle.wm_seating.specs.Idle.{IsIdle};

use crate::desk::{closed, enqueue};
use std::alloc::{AllocError, Global};
use std::marker::Brand;
use std::sync::Wait;
use std::test::Fail;
use std::thread;
use std::thread::Threads;
use wm_bench::Bench;
use wm_callers::{Desk, DeskMark, Opening, Pass};
use wm_collections::Items;
use wm_keeper::{Keeper, MemoryKeeper};
use wm_roll::Roll;
use wm_stock::Echo;
use wm_table::{Mark, Table, Trouble};
use wm_worker::Worker;

/// Enqueues one work for the caller of a pass.
fn enqueue_one<K: Keeper, B: Worker, M: Mark, J: DeskMark, R: Wait>(
    rt: &R,
    alloc: Global,
    desk: &Desk<K, B, M, J>,
    id: u128,
    pass: &mut Pass<J>,
)
    ensures { pass.new.number ≡ pass.old.number }
{
    let Ok(command) = enqueue(alloc, id) else {
        return;
    };
    match desk.call(rt, pass, 1, command) {
        Ok(receipt) => drop(receipt),
        Err(Trouble::KeeperFault | Trouble::Memory) => {}
    }
}

/// Has the callers of all passes enqueue a work each, in threads, or else one after another.
fn enqueue_all<
    K: Keeper + Send,
    B: Worker + Send,
    M: Mark + Send + Sync,
    J: DeskMark + Send + Sync,
    R: Threads + Wait + Sync,
>(rt: &R, alloc: Global, desk: &Desk<K, B, M, J>, passes: &mut [Pass<J>])
    ensures { map (λ pass. pass.number) passes.new ≡ map (λ pass. pass.number) passes.old }
{
    let threads = passes.len().max(1);
    thread::for_each_mut(
        rt,
        passes,
        threads,
        &|place, pass: &mut Pass<J>|
            ensures { pass.exit.now.number ≡ pass.entry.now.number }
        { enqueue_one(rt, alloc, desk, place as u128 + 1, pass) },
    );
}

/// The same, and gives the passes back.
fn enqueue_by<
    K: Keeper + Send,
    B: Worker + Send,
    M: Mark + Send + Sync,
    J: DeskMark + Send + Sync,
    R: Threads + Wait + Sync,
>(rt: &R, alloc: Global, desk: &Desk<K, B, M, J>, mut passes: Vec<Pass<J>>) -> Vec<Pass<J>>
    ensures { map (λ pass. pass.number) result.items ≡ map (λ pass. pass.number) passes.items }
{
    enqueue_all(rt, alloc, desk, passes.as_mut_slice());
    passes
}

/// The same at a desk for four callers, which is closed then: how many events it has, and whose they are.
fn enqueue_at<
    K: Keeper + Drop + Send,
    B: Worker + Send,
    M: Mark + Send + Sync,
    J: DeskMark + Send + Sync,
    R: Threads + Wait + Sync,
>(rt: &R, alloc: Global, desk: Desk<K, B, M, J>, passes: Vec<Pass<J>>) -> (usize, Vec<u32>)
    requires four { J.desk.callers ≡ 4 }
    requires fresh { passes.items ≡ fresh_passes 4 }
{
    let passes = enqueue_by(rt, alloc, &desk, passes);
    closed(desk, passes)
}

/// The same at a desk that is opened over this table and bench.
fn enqueue_over<
    B: Worker + Send,
    M: Mark + Send + Sync,
    J: DeskMark + Send + Sync,
    R: Threads + Wait + Sync,
>(
    rt: &R,
    alloc: Global,
    opening: Opening,
    table: Table<MemoryKeeper, M>,
    bench: Bench<B>,
) -> Result<(usize, Vec<u32>), AllocError>
    requires inputs { J.desk ≡ inputs_of opening (store_of table.keeper).faults }
    requires four { opening.callers ≡ 4 }
    requires empty { table.log ≡ [] }
    requires bench { IsIdle B.kind_of table bench }
{
    match Desk::<MemoryKeeper, B, M, J>::new(alloc, opening, table, bench) {
        Ok((desk, passes)) => Ok(enqueue_at(rt, alloc, desk, passes)),
        Err((table, bench)) => {
            drop(bench);
            drop(table.end());
            Err(AllocError)
        }
    }
}

/// The same over a table in memory, without rows and instances.
fn enqueue_on<B: Worker + Send, M: Mark + Send + Sync, R: Threads + Wait + Sync>(
    rt: &R,
    alloc: Global,
    opening: Opening,
    roll: Roll,
    bench: Bench<B>,
) -> Result<(usize, Vec<u32>), AllocError>
    requires rows { M.inputs.rows ≡ [] }
    requires store { IsSome M.inputs.store.rows }
    requires telling { M.inputs.store.is_lost ≡ false }
    requires instances { M.inputs.instances ≡ [] }
    requires roll { M.inputs.roll ≡ roll.table_id }
    requires none_out { roll.parts ≡ [] }
    requires four { opening.callers ≡ 4 }
    requires no_workers { bench ≡ [] }
{
    let keeper = MemoryKeeper::new(Vec::new(alloc), Vec::new(alloc));
    match Table::<MemoryKeeper, M>::begin(alloc, keeper, Vec::new(alloc), Items::new(alloc), roll) {
        Ok(table) => enqueue_over::<B, M, Brand, R>(rt, alloc, opening, table, bench),
        Err(_) => Err(AllocError),
    }
}

/// The same with a bench without workers.
fn enqueue_in_threads<R: Threads + Wait + Sync>(
    rt: &R,
    alloc: Global,
) -> Result<(usize, Vec<u32>), AllocError> {
    let opening = Opening::new(alloc, 4)?;
    let roll = Roll::new(alloc)?;
    let Ok(bench) = Bench::<Echo>::new(alloc, Vec::new(alloc)) else {
        return Err(AllocError);
    };
    enqueue_on::<Echo, Brand, R>(rt, alloc, opening, roll, bench)
}

#[test]
fn four_threads_of_a_program_enqueue(rt: HostRuntime) -> Result<(), Fail> {
    let (events, mut callers) = enqueue_in_threads(&rt, rt.alloc())?;
    callers.sort()?;
    assert_eq!(rt; events, 4);
    assert_eq!(rt; callers.as_slice(), [0, 1, 2, 3].as_slice());
    Ok(())
}
