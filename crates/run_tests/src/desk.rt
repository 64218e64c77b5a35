//! Calls of two callers, of which one meets a fault of the keeper.
ghost use Rattle.std.specs.Prelude.{◌≡◌, ◌≤◌, false, [], length, vec_capacity, IfOk, IsSome};
ghost use Rattle.wm_callers.specs.Closing.{fresh_passes, IsBefore};
ghost use Rattle.wm_callers.specs.ForDesk.{IsForDesk};
ghost use Rattle.wm_seating.specs.Idle.{IsIdle};
ghost use Rattle.wm_callers.specs.Openings.{inputs_of};
ghost use Rattle.wm_collections.specs.Lists.{AllLater};
ghost use Rattle.wm_keeper.specs.Memory.{store_of};
ghost use Rattle.wm_machine.specs.Outcome.{IsAskable};

use part_tests::requests::within;
use std::alloc::{AllocError, Global};
use std::marker::Brand;
use std::sync::Wait;
use std::test::Fail;
use uuid::Uuid;
use wm_bench::Bench;
use wm_callers::{Desk, DeskEnd, DeskMark, Opening, Pass, Receipt};
use wm_collections::{Items, one};
use wm_keeper::{Keeper, MemoryKeeper};
use wm_machine::{Command, Reply, WorkQuery};
use wm_request::{Batch, Builder, Node};
use wm_roll::Roll;
use wm_stock::Echo;
use wm_table::{Mark, Table, Trouble};
use wm_worker::Worker;

/// What came of the calls.
#[derive(Clone, Copy, Debug, PartialEq, Eq)]
enum Came {
    /// The calls that the second caller saw, the place of its own, and whether it was told of work 1.
    Told(u64, u64, bool),
    KeeperFault,
    NoMemory,
}

/// An enqueue of one work of class Echo, with this id.
pub fn enqueue(alloc: Global, id: u128) -> Result<Command, AllocError>
    ensures askable { IfOk result IsAskable }
    ensures fits { IfOk result IsForDesk }
{
    let class = String::from_str(alloc, "Echo")?;
    let request = within(Builder::one_time(alloc, Uuid::from_u128(id), class).build())?;
    let after = Items::new(alloc);
    let works = one(alloc, Node { request, after })?;
    Ok(Command::Enqueue {
        named: None,
        batch: Batch::new(works),
    })
}

/// A query for all works.
fn all_works(alloc: Global) -> Command
    ensures askable { IsAskable result }
    ensures fits { IsForDesk result }
{
    Command::Query(WorkQuery {
        ids: Items::new(alloc),
        names: Items::new(alloc),
        states: Items::new(alloc),
        tags: Items::new(alloc),
    })
}

/// Whether a reply tells of the work with the number 1 alone.
fn tells_of_first(reply: &Reply) -> bool {
    match reply {
        Reply::Query(works) => match works.as_slice() {
            [work] => work.seq == 1,
            _ => false,
        },
        _ => false,
    }
}

/// Has the second caller look, learn from the first, and ask for all works.
fn look_and_ask<K: Keeper, B: Worker, M: Mark, J: DeskMark, R: Wait>(
    rt: &R,
    alloc: Global,
    desk: &Desk<K, B, M, J>,
    first: &mut Pass<J>,
    second: &mut Pass<J>,
) -> Came
    ensures first { first.new.number ≡ first.old.number }
    ensures second { second.new.number ≡ second.old.number }
{
    let seen = desk.look(rt, second);
    desk.meet(first, second);
    match desk.call(rt, second, 2, all_works(alloc)) {
        Ok(receipt) => {
            let Receipt { place, reply } = receipt;
            let told = tells_of_first(&reply);
            drop(reply);
            Came::Told(seen, place, told)
        }
        Err(Trouble::KeeperFault) => Came::KeeperFault,
        Err(Trouble::Memory) => Came::NoMemory,
    }
}

/// Has the first caller give a command, and where it gets a receipt, the second one ask for all works.
fn call_both<K: Keeper, B: Worker, M: Mark, J: DeskMark, R: Wait>(
    rt: &R,
    alloc: Global,
    desk: &Desk<K, B, M, J>,
    first: &mut Pass<J>,
    second: &mut Pass<J>,
    command: Command,
) -> Came
    requires askable { IsAskable command }
    requires fits { IsForDesk command }
    ensures first { first.new.number ≡ first.old.number }
    ensures second { second.new.number ≡ second.old.number }
{
    match desk.call(rt, first, 1, command) {
        Ok(receipt) => {
            drop(receipt);
            look_and_ask(rt, alloc, desk, first, second)
        }
        Err(Trouble::KeeperFault) => Came::KeeperFault,
        Err(Trouble::Memory) => Came::NoMemory,
    }
}

/// How many events a desk has in the end, and whose calls they are.
pub fn closed<K: Keeper + Drop, B: Worker, M: Mark, J: DeskMark>(
    desk: Desk<K, B, M, J>,
    passes: Vec<Pass<J>>,
) -> (usize, Vec<u32>)
    requires all { length passes.items ≡ J.desk.callers }
    requires ascending { AllLater IsBefore passes.items }
{
    let DeskEnd {
        table,
        bench,
        callers,
    } = desk.close(passes);
    drop(bench);
    let end = table.end();
    let events = end.log.len();
    drop(end);
    (events, callers)
}

/// What comes of the calls at a desk for two callers, how many events it has then, and whose they are.
fn calls_at<K: Keeper + Drop, B: Worker, M: Mark, J: DeskMark, R: Wait>(
    rt: &R,
    alloc: Global,
    desk: Desk<K, B, M, J>,
    mut passes: Vec<Pass<J>>,
    mut room: Vec<Pass<J>>,
    command: Command,
) -> (Came, usize, Vec<u32>)
    requires askable { IsAskable command }
    requires fits { IsForDesk command }
    requires two { J.desk.callers ≡ 2 }
    requires fresh { passes.items ≡ fresh_passes 2 }
    requires none { room.items ≡ [] }
    requires room { 2 ≤ vec_capacity room }
{
    let Some(mut second) = passes.pop() else {
        unreachable!();
    };
    let Some(mut first) = passes.pop() else {
        unreachable!();
    };
    passes.destroy_empty();
    let came = call_both(rt, alloc, &desk, &mut first, &mut second, command);
    room.push_reserved(first);
    room.push_reserved(second);
    let (events, callers) = closed(desk, room);
    (came, events, callers)
}

/// The same at a desk that is opened over this table and bench.
fn calls_over<B: Worker, M: Mark, J: DeskMark, R: Wait>(
    rt: &R,
    alloc: Global,
    opening: Opening,
    table: Table<MemoryKeeper, M>,
    bench: Bench<B>,
    command: Command,
) -> Result<(Came, usize, Vec<u32>), AllocError>
    requires inputs { J.desk ≡ inputs_of opening (store_of table.keeper).faults }
    requires two { opening.callers ≡ 2 }
    requires empty { table.log ≡ [] }
    requires bench { IsIdle B.kind_of table bench }
    requires askable { IsAskable command }
    requires fits { IsForDesk command }
{
    let Ok(room) = Vec::with_capacity(alloc, 2) else {
        drop(table.end());
        return Err(AllocError);
    };
    match Desk::<MemoryKeeper, B, M, J>::new(alloc, opening, table, bench) {
        Ok((desk, passes)) => Ok(calls_at(rt, alloc, desk, passes, room, command)),
        Err((table, bench)) => {
            room.destroy_empty();
            drop(bench);
            drop(table.end());
            Err(AllocError)
        }
    }
}

/// The same over a table without rows and instances, of a keeper that fails at these calls.
fn calls_on<B: Worker, M: Mark, R: Wait>(
    rt: &R,
    alloc: Global,
    failing: Vec<u32>,
    opening: Opening,
    roll: Roll,
    bench: Bench<B>,
    command: Command,
) -> Result<(Came, usize, Vec<u32>), AllocError>
    requires rows { M.inputs.rows ≡ [] }
    requires store { IsSome M.inputs.store.rows }
    requires telling { M.inputs.store.is_lost ≡ false }
    requires instances { M.inputs.instances ≡ [] }
    requires roll { M.inputs.roll ≡ roll.table_id }
    requires none_out { roll.parts ≡ [] }
    requires two { opening.callers ≡ 2 }
    requires no_workers { bench ≡ [] }
    requires askable { IsAskable command }
    requires fits { IsForDesk command }
{
    let keeper = MemoryKeeper::new(Vec::new(alloc), failing);
    match Table::<MemoryKeeper, M>::begin(alloc, keeper, Vec::new(alloc), Items::new(alloc), roll) {
        Ok(table) => calls_over::<B, M, Brand, R>(rt, alloc, opening, table, bench, command),
        Err(_) => Err(AllocError),
    }
}

/// What comes of the calls at a desk over a keeper that fails at this commit.
fn calls<R: Wait>(
    rt: &R,
    alloc: Global,
    failing: u32,
) -> Result<(Came, usize, Vec<u32>), AllocError> {
    let failing = vec![in alloc; failing]?;
    let opening = Opening::new(alloc, 2)?;
    let roll = Roll::new(alloc)?;
    let Ok(bench) = Bench::<Echo>::new(alloc, Vec::new(alloc)) else {
        return Err(AllocError);
    };
    let command = enqueue(alloc, 1)?;
    calls_on::<Echo, Brand, R>(rt, alloc, failing, opening, roll, bench, command)
}

#[test]
fn a_caller_is_told_of_another_and_meets_a_fault_of_the_keeper(
    rt: HostRuntime,
) -> Result<(), Fail> {
    let alloc = rt.alloc();
    for (failing, want, events, callers) in [
        (0, Came::Told(1, 1, true), 2, [0, 1].as_slice()),
        (1, Came::KeeperFault, 0, [].as_slice()),
    ] {
        let came = calls(&rt, alloc, failing)?;
        assert_eq!(rt;
            (came.0, came.1, came.2.as_slice()),
            (want, events, callers)
        );
    }
    Ok(())
}
