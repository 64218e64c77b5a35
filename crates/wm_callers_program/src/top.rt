//! The top call: all that the program does with the first word `callers`, with its contract.
ghost use Rattle.std.specs.List.{AllByRecursion};
ghost use Rattle.std.specs.Prelude.{◌≡◌, ◌<◌, ◌≤◌, ◌^◌, length, map, vec_len, IfErr, IfOk, Some, string_bytes};
ghost use Rattle.wm_beginning.specs.Begun.{AreInputs};
ghost use Rattle.wm_beginning.specs.Caused.{BeganNothing};
ghost use Rattle.wm_beginning.specs.Loading.{MayBegin};
ghost use Rattle.wm_beginning.specs.NotBegun.{IsNotBegun};
ghost use Rattle.wm_beginning.specs.Reading.{reads_of};
ghost use Rattle.wm_bench.specs.Places.{most_hands};
ghost use Rattle.wm_callers_program.specs.Ended.{IsCallersRunEnd};
ghost use Rattle.wm_callers_program.specs.Lines.{lines_of};
ghost use Rattle.wm_callers_program.specs.Run.{IsCallersRun};
ghost use Rattle.wm_ended.specs.Tells.{tells_of};
ghost use Rattle.wm_keeper.specs.Store.{told_before};
ghost use Rattle.wm_machine.specs.Outcome.{IsAskable};
ghost use Rattle.wm_seating.specs.Hands.{instances_from};
ghost use Rattle.wm_words.specs.Callers.{callers_options_of};

use crate::program::{CallersEnd, call_script};
use std::alloc::Global;
use std::marker::Brand;
use std::sync::Wait;
use std::thread::Threads;
use wm_beginning::{Begun, Loaded, begin, load, read_commands};
use wm_bench::Hand;
use wm_collections::Items;
use wm_ended::{Ended, NotBegun, Status};
use wm_io::{Sink, Source};
use wm_keeper::Keeper;
use wm_machine::Command;
use wm_pool::Gate;
use wm_table::Mark;
use wm_words::callers_options_of;
use wm_worker::Worker;

/// What callers work with beside their parts: the runtime of their threads, the gate that they pass,
/// and how many they are.
#[derive(Drop)]
struct Crew<'a, R, G> {
    rt: &'a R,
    alloc: Global,
    gate: &'a G,
    callers: u32,
    ghost some: { 0 < callers },
}

/// Loads the store of this name, opens it, and has the callers call the lines of these commands.
fn call_commands<
    K: Keeper + Send,
    W: Sink,
    B: Worker + Send,
    R: Threads + Wait + Sync,
    G: Gate + Sync,
>(
    crew: &Crew<'_, R, G>,
    store: &str,
    commands: Items<Command>,
    hands: Vec<Hand<B>>,
    sink: W,
    keeper: K,
) -> Result<CallersEnd<K, W, B>, NotBegun<K, W, B>>
    requires few_hands { vec_len hands ≤ most_hands }
    requires askable { AllByRecursion IsAskable commands }
    requires few { length commands < 2 ^ 32 }
    ensures called { IfOk result (λ end. IsCallersRunEnd (tells_of K.store W.given W.faults B.kind_of B.diary_of)
        crew.now.callers (lines_of commands) hands.items (Some store.now)
        (told_before (K.store keeper).rows (K.store end.ended.keeper).rows)
        (K.store keeper).rows keeper sink end.callers.items end.ended) }
    ensures not_begun { IfErr result (λ back. IsNotBegun K.store (instances_from B.kind_of 0 hands.items)
        hands.items (told_before (K.store keeper).rows (K.store back.keeper).rows) keeper sink back) }
{
    match load(crew.alloc, store, hands, sink, keeper) {
        Ok(loaded) => call_loaded::<K, W, B, Brand, R, G>(crew, loaded, commands),
        Err(back) => {
            drop(commands);
            Err(back)
        }
    }
}

/// Opens the rows that were loaded, and has the callers call the lines of these commands, beside the
/// workers. The mark is what they are given.
fn call_loaded<
    K: Keeper + Send,
    W: Sink,
    B: Worker + Send,
    M: Mark + Send + Sync,
    R: Threads + Wait + Sync,
    G: Gate + Sync,
>(
    crew: &Crew<'_, R, G>,
    loaded: Loaded<K, W, B>,
    commands: Items<Command>,
) -> Result<CallersEnd<K, W, B>, NotBegun<K, W, B>>
    requires may { MayBegin K.store B.kind_of loaded }
    requires inputs { AreInputs (tells_of K.store W.given W.faults B.kind_of B.diary_of) M.inputs loaded commands }
    requires askable { AllByRecursion IsAskable commands }
    requires few { length commands < 2 ^ 32 }
    ensures called { IfOk result (λ end. IsCallersRunEnd (tells_of K.store W.given W.faults B.kind_of B.diary_of)
        crew.now.callers (lines_of commands) loaded.hands.items (K.store loaded.keeper).name
        (Some loaded.rows.items) (Some loaded.rows.items)
        loaded.keeper loaded.sink end.callers.items end.ended) }
    ensures not_begun { IfErr result (IsNotBegun K.store loaded.instances loaded.hands.items
        (Some loaded.rows.items) loaded.keeper loaded.sink) }
{
    match begin::<K, W, B, M>(crew.alloc, loaded) {
        Ok(begun) => {
            let Begun { table, bench, sink } = begun;
            Ok(call_script(
                crew.rt,
                crew.alloc,
                crew.gate,
                table,
                bench,
                commands,
                crew.callers,
                sink,
            ))
        }
        Err(back) => {
            drop(commands);
            Err(back)
        }
    }
}

/// Does all that the program does with these words after `callers`, or gives everything back where no table
/// was begun.
fn call_words<
    R: Threads + Wait + Sync,
    S: Source,
    W: Sink,
    K: Keeper + Send,
    B: Worker + Send,
    G: Gate + Sync,
>(
    rt: &R,
    alloc: Global,
    words: &[String],
    hands: Vec<Hand<B>>,
    source: &mut S,
    sink: W,
    keeper: K,
    gate: &G,
) -> Result<CallersEnd<K, W, B>, NotBegun<K, W, B>>
    requires few_hands { vec_len hands ≤ most_hands }
    ensures called { IfOk result (λ end. IsCallersRun (tells_of K.store W.given W.faults B.kind_of B.diary_of)
        (reads_of S.left S.faults) (map string_bytes words.now) hands.items source.old source.new keeper sink
        end.callers.items end.ended) }
    ensures not_begun { IfErr result (BeganNothing (tells_of K.store W.given W.faults B.kind_of B.diary_of)
        (reads_of S.left S.faults) (callers_options_of (map string_bytes words.now)) hands.items
        source.old source.new keeper sink) }
{
    let Some(options) = callers_options_of(words) else {
        return Err(NotBegun::before_opening(Status::Usage, keeper, sink, hands));
    };
    match read_commands(alloc, source) {
        Ok(commands) => {
            let crew = Crew {
                rt,
                alloc,
                gate,
                callers: options.callers,
            };
            call_commands(&crew, options.store, commands, hands, sink, keeper)
        }
        Err(status) => Err(NotBegun::before_opening(status, keeper, sink, hands)),
    }
}

/// Does all that the program does with the first word `callers`: reads the words after it, then the
/// whole script, then opens the store, and has the callers call the script's lines. Line i goes to the
/// caller (i - 1) mod the number of callers, and each calls its lines in order, in a thread of its own,
/// until one is refused; where no thread can be made, one calls its lines after another. No work is
/// started meanwhile. Where no line was refused, all that may start is then driven to its end by the
/// workers, one work after another; and at last the text of the log is written.
///
/// The workers are boxed by whoever calls, or of any one type; they are of any kinds, and at most
/// 10,000. The gate is passed before each line and before each turn of a worker. What comes back is how
/// it ended, with the log of the events between the first state and the last, the keeper, the sink and
/// the workers, and with the caller of each command of the log. What is promised of it stands in
/// `IsCallersRun`, fact by fact. Each status has its cause: see [`Status`]. That the call returns isn't
/// promised.
pub fn run_callers<
    R: Threads + Wait + Sync,
    S: Source,
    W: Sink,
    K: Keeper + Send,
    B: Worker + Send,
    G: Gate + Sync,
>(
    rt: &R,
    alloc: Global,
    words: &[String],
    hands: Vec<Hand<B>>,
    source: &mut S,
    sink: W,
    keeper: K,
    gate: &G,
) -> CallersEnd<K, W, B>
    requires few_hands { vec_len hands ≤ most_hands }
    ensures { IsCallersRun (tells_of K.store W.given W.faults B.kind_of B.diary_of) (reads_of S.left S.faults)
        (map string_bytes words.now) hands.items source.old source.new keeper sink result.callers.items result.ended }
{
    match call_words(rt, alloc, words, hands, source, sink, keeper, gate) {
        Ok(end) => end,
        Err(back) => CallersEnd::uncalled(alloc, Ended::unbegun(alloc, back)),
    }
}
