//! Callers at a table: their calls, the drain and the end.
ghost use Rattle.std.specs.Prelude.{◌≡◌, ◌<◌, ◌^◌, ℕ, [], List, length};
ghost use Rattle.std.specs.List.{AllByRecursion};
ghost use Rattle.wm_callers.specs.History.{IsOfDesk};
ghost use Rattle.wm_seating.specs.Idle.{IsIdle};
ghost use Rattle.wm_callers_program.specs.Calls.{IsCalledOut};
ghost use Rattle.wm_callers_program.specs.Ended.{IsCallersEnd};
ghost use Rattle.wm_callers_program.specs.Lines.{lines_of, AskedLine};
ghost use Rattle.wm_machine.specs.Outcome.{IsAskable};
ghost use Rattle.wm_ended.specs.Tells.{tells_of};

use crate::calling::{Called, call_lines};
use crate::draining::settle;
use crate::ending::end_table;
use std::alloc::Global;
use std::sync::Wait;
use std::thread::Threads;
use wm_bench::Bench;
use wm_callers::DeskEnd;
use wm_collections::Items;
use wm_ended::Ended;
use wm_io::Sink;
use wm_keeper::Keeper;
use wm_live::Stand;
use wm_machine::Command;
use wm_pool::Gate;
use wm_table::{Mark, Table, Trouble};
use wm_worker::Worker;

/// What callers hand back.
#[derive(Drop)]
pub struct CallersEnd<K, W, B = Box<dyn Worker + Send>> {
    /// How it ended, with the log of the events.
    pub ended: Ended<K, W, B>,
    /// The caller of each command of the log, in order.
    pub callers: Vec<u32>,
}

impl<K, W, B> CallersEnd<K, W, B> {
    /// What they hand back where no line was called.
    pub(crate) fn uncalled(alloc: Global, ended: Ended<K, W, B>) -> CallersEnd<K, W, B>
        ensures ended { result.ended ≡ ended }
        ensures callers { result.callers.items ≡ [] }
    {
        CallersEnd {
            ended,
            callers: Vec::new(alloc),
        }
    }
}

/// Ends what callers began: drains the table where no call was refused, writes the text of its log, and
/// hands everything back.
fn end_called<K: Keeper, W: Sink, B: Worker, M: Mark, G: Gate>(
    alloc: Global,
    gate: &G,
    called: Called<K, B, M>,
    count: u32,
    sink: W,
) -> CallersEnd<K, W, B>
    requires bench { IsIdle B.kind_of called.end.table called.end.bench }
    requires alone { AllByRecursion IsOfDesk called.end.table.log }
    requires sink { W.given sink ≡ M.inputs.written }
    requires sink_faults { W.faults sink ≡ M.inputs.sink_faults }
    ensures { (lines : List AskedLine)
        → IsCalledOut count lines called.refused called.end.callers.items called.end.table.log
        M.inputs.store.faults (K.store called.end.table.keeper).faults
        → IsCallersEnd (tells_of K.store W.given W.faults B.kind_of B.diary_of) M.inputs
        count lines result.callers.items result.ended }
{
    let Called { end, refused } = called;
    let DeskEnd {
        table,
        bench,
        callers,
    } = end;
    let mut stand = Stand {
        alloc,
        table,
        bench,
        text: Vec::new(alloc),
    };
    let at_last = settle(&mut stand, gate, refused);
    let Stand {
        alloc: _,
        table,
        bench,
        text,
    } = stand;
    drop(text);
    CallersEnd {
        ended: end_table(alloc, table, bench, at_last, sink),
        callers,
    }
}

/// Ends a table at which no line was called, since memory was refused before.
fn end_uncalled<K: Keeper, W: Sink, B: Worker, M: Mark>(
    alloc: Global,
    table: Table<K, M>,
    bench: Bench<B>,
    sink: W,
) -> CallersEnd<K, W, B>
    requires empty { table.log ≡ [] }
    requires bench { IsIdle B.kind_of table bench }
    requires sink { W.given sink ≡ M.inputs.written }
    requires sink_faults { W.faults sink ≡ M.inputs.sink_faults }
    ensures { (count : ℕ) (lines : List AskedLine)
        → IsCallersEnd (tells_of K.store W.given W.faults B.kind_of B.diary_of) M.inputs
        count lines result.callers.items result.ended }
{
    let ended = end_table(alloc, table, bench, Some(Trouble::Memory), sink);
    CallersEnd::uncalled(alloc, ended)
}

/// Has so many callers call the lines of a script with these commands, at a table that was just begun
/// and the bench beside it; then drains the table where no call was refused, writes the text of its log,
/// and hands everything back.
pub(crate) fn call_script<
    K: Keeper + Send,
    W: Sink,
    B: Worker + Send,
    M: Mark + Send + Sync,
    R: Threads + Wait + Sync,
    G: Gate + Sync,
>(
    rt: &R,
    alloc: Global,
    gate: &G,
    table: Table<K, M>,
    bench: Bench<B>,
    commands: Items<Command>,
    count: u32,
    sink: W,
) -> CallersEnd<K, W, B>
    requires some { 0 < count }
    requires few { length commands < 2 ^ 32 }
    requires askable { AllByRecursion IsAskable commands }
    requires empty { table.log ≡ [] }
    requires bench { IsIdle B.kind_of table bench }
    requires no_fault { (K.store table.keeper).faults ≡ M.inputs.store.faults }
    requires sink { W.given sink ≡ M.inputs.written }
    requires sink_faults { W.faults sink ≡ M.inputs.sink_faults }
    ensures { IsCallersEnd (tells_of K.store W.given W.faults B.kind_of B.diary_of) M.inputs
        count (lines_of commands) result.callers.items result.ended }
{
    match call_lines(rt, alloc, gate, table, bench, commands, count) {
        Ok(called) => end_called(alloc, gate, called, count, sink),
        Err((table, bench)) => end_uncalled(alloc, table, bench, sink),
    }
}
