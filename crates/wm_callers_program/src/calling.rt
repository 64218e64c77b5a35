//! A desk over a table and the bench beside it, at which callers call their lines.
ghost use Rattle.std.specs.Prelude.{◌≡◌, ◌<◌, ◌≤◌, ◌^◌, [], length, vec_capacity, IfErr, IfOk, IfSome, List};
ghost use Rattle.std.specs.List.{AllByRecursion};
ghost use Rattle.wm_callers.specs.Closing.{fresh_passes};
ghost use Rattle.wm_seating.specs.Idle.{IsIdle};
ghost use Rattle.wm_callers.specs.Openings.{inputs_of};
ghost use Rattle.wm_callers_program.specs.Calls.{IsCalledOut};
ghost use Rattle.wm_callers_program.specs.Lines.{dealt, lines_of, AskedLine};
ghost use Rattle.wm_callers_program.specs.Serving.{HaveServed, IsFresh};
ghost use Rattle.wm_machine.specs.Outcome.{IsAskable};

use crate::caller::{Caller, pair, part};
use crate::line::{Lot, deal};
use crate::serving::serve_all;
use std::alloc::Global;
use std::marker::Brand;
use std::sync::Wait;
use std::thread::Threads;
use wm_bench::Bench;
use wm_callers::{Desk, DeskEnd, DeskMark, Opening, Pass};
use wm_collections::Items;
use wm_keeper::Keeper;
use wm_machine::Command;
use wm_pool::Gate;
use wm_table::{Mark, Table, Trouble};
use wm_worker::Worker;

/// What came of the lines of callers: what their desk handed back, and why a call was refused, where
/// one was.
pub(crate) struct Called<K: Keeper, B: Worker, M: Mark> {
    pub(crate) end: DeskEnd<K, B, M>,
    pub(crate) refused: Option<Trouble>,
}

/// Room for the callers of a desk, and for their passes once these come back.
struct Rooms<J: DeskMark> {
    callers: Vec<Caller<J>>,
    passes: Vec<Pass<J>>,
    ghost no_callers: { callers.items ≡ [] },
    ghost no_passes: { passes.items ≡ [] },
}

impl<J: DeskMark> Rooms<J> {
    /// Room for so many, where there is memory.
    fn new(alloc: Global, count: u32) -> Option<Rooms<J>>
        ensures callers { IfSome result (λ rooms. count ≤ vec_capacity rooms.callers) }
        ensures passes { IfSome result (λ rooms. count ≤ vec_capacity rooms.passes) }
    {
        let Ok(callers) = Vec::with_capacity(alloc, count as usize) else {
            return None;
        };
        let Ok(passes) = Vec::with_capacity(alloc, count as usize) else {
            callers.destroy_empty();
            return None;
        };
        Some(Rooms { callers, passes })
    }

    /// Gives up the room.
    fn give_up(self) {
        let Rooms { callers, passes } = self;
        callers.destroy_empty();
        passes.destroy_empty();
    }
}

/// Has callers that have made nothing call their lines, each in a thread of its own.
fn serve<
    K: Keeper + Send,
    B: Worker + Send,
    M: Mark + Send + Sync,
    J: DeskMark + Send + Sync,
    R: Threads + Wait + Sync,
    G: Gate + Sync,
>(rt: &R, gate: &G, desk: &Desk<K, B, M, J>, mut callers: Vec<Caller<J>>) -> Vec<Caller<J>>
    requires { AllByRecursion IsFresh callers.items }
    ensures { HaveServed callers.items result.items }
{
    serve_all(rt, gate, desk, callers.as_mut_slice());
    callers
}

/// Has the callers of a desk that was just opened call the lines of these lots, and closes it.
fn call_at<
    K: Keeper + Send,
    B: Worker + Send,
    M: Mark + Send + Sync,
    J: DeskMark + Send + Sync,
    R: Threads + Wait + Sync,
    G: Gate + Sync,
>(
    rt: &R,
    gate: &G,
    desk: Desk<K, B, M, J>,
    passes: Vec<Pass<J>>,
    lots: Vec<Lot>,
    count: u32,
    rooms: Rooms<J>,
) -> Called<K, B, M>
    requires callers { J.desk.callers ≡ count }
    requires fresh { passes.items ≡ fresh_passes count }
    requires lots { length lots.items ≡ count }
    requires caller_room { count ≤ vec_capacity rooms.callers }
    requires pass_room { count ≤ vec_capacity rooms.passes }
    ensures called { (lines : List AskedLine) → lots.items ≡ dealt count lines
        → IsCalledOut count lines result.refused result.end.callers.items result.end.table.log
        J.desk.faults (K.store result.end.table.keeper).faults }
    ensures bench { IsIdle B.kind_of result.end.table result.end.bench }
{
    let Rooms {
        callers: caller_room,
        passes: pass_room,
    } = rooms;
    let callers = pair(passes, lots, caller_room, count);
    let callers = serve(rt, gate, &desk, callers);
    let (passes, refused) = part(callers, pass_room);
    Called {
        end: desk.close(passes),
        refused,
    }
}

/// Opens a desk over a table without events, and has its callers call the lines of these lots. Where
/// memory is refused before the first call, table and bench come back as they were.
fn call_lots<
    K: Keeper + Send,
    B: Worker + Send,
    M: Mark + Send + Sync,
    J: DeskMark + Send + Sync,
    R: Threads + Wait + Sync,
    G: Gate + Sync,
>(
    rt: &R,
    alloc: Global,
    gate: &G,
    opening: Opening,
    table: Table<K, M>,
    bench: Bench<B>,
    lots: Vec<Lot>,
    count: u32,
) -> Result<Called<K, B, M>, (Table<K, M>, Bench<B>)>
    requires inputs { J.desk ≡ inputs_of opening (K.store table.keeper).faults }
    requires callers { opening.callers ≡ count }
    requires empty { table.log ≡ [] }
    requires bench { IsIdle B.kind_of table bench }
    requires lots { length lots.items ≡ count }
    ensures called { (lines : List AskedLine) → lots.items ≡ dealt count lines
        → IfOk result (λ called. IsCalledOut count lines called.refused called.end.callers.items called.end.table.log
        (K.store table.keeper).faults (K.store called.end.table.keeper).faults) }
    ensures bench { IfOk result (λ called. IsIdle B.kind_of called.end.table called.end.bench) }
    ensures err { IfErr result (λ back. (back.0 ≡ table) × (back.1 ≡ bench)) }
{
    let Some(rooms) = Rooms::<J>::new(alloc, count) else {
        return Err((table, bench));
    };
    match Desk::<K, B, M, J>::new(alloc, opening, table, bench) {
        Ok((desk, passes)) => Ok(call_at(rt, gate, desk, passes, lots, count, rooms)),
        Err(back) => {
            rooms.give_up();
            Err(back)
        }
    }
}

/// Has so many callers call the lines of a script with these commands, at a desk over a table without
/// events and the bench beside it. Line i goes to the caller (i - 1) mod the number of callers, and each
/// calls its lines in order, in a thread of its own, until one is refused; before each call it passes the
/// gate. Where no thread can be made, one caller calls its lines after another. Where memory is refused
/// before the first call, table and bench come back as they were.
pub(crate) fn call_lines<
    K: Keeper + Send,
    B: Worker + Send,
    M: Mark + Send + Sync,
    R: Threads + Wait + Sync,
    G: Gate + Sync,
>(
    rt: &R,
    alloc: Global,
    gate: &G,
    table: Table<K, M>,
    bench: Bench<B>,
    commands: Items<Command>,
    count: u32,
) -> Result<Called<K, B, M>, (Table<K, M>, Bench<B>)>
    requires some { 0 < count }
    requires few { length commands < 2 ^ 32 }
    requires askable { AllByRecursion IsAskable commands }
    requires empty { table.log ≡ [] }
    requires bench { IsIdle B.kind_of table bench }
    ensures called { IfOk result (λ called. IsCalledOut count (lines_of commands) called.refused
        called.end.callers.items called.end.table.log
        (K.store table.keeper).faults (K.store called.end.table.keeper).faults) }
    ensures bench { IfOk result (λ called. IsIdle B.kind_of called.end.table called.end.bench) }
    ensures err { IfErr result (λ back. (back.0 ≡ table) × (back.1 ≡ bench)) }
{
    let Ok(lots) = deal(alloc, commands, count) else {
        return Err((table, bench));
    };
    let Ok(opening) = Opening::new(alloc, count) else {
        return Err((table, bench));
    };
    call_lots::<K, B, M, Brand, R, G>(rt, alloc, gate, opening, table, bench, lots, count)
}
