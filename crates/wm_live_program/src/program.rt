//! A test driver over a store, which is asked the lines of a script.
ghost use Rattle.std.specs.List.{AllByRecursion};
ghost use Rattle.std.specs.Prelude.{◌≡◌, ◌+◌, ◌<◌, ◌≤◌, ◌^◌, [], length, map, string_bytes, vec_len, IfErr, IfOk, IfSome, None, OnOk, Some};
ghost use Rattle.wm_beginning.specs.Begun.{IsGiven};
ghost use Rattle.wm_beginning.specs.Loading.{MayBegin};
ghost use Rattle.wm_beginning.specs.NotBegun.{IsNotBegun};
ghost use Rattle.wm_beginning.specs.Reading.{IsReadStatus, reads_of};
ghost use Rattle.wm_beginning.specs.Script.{IsTakenWithin};
ghost use Rattle.wm_bench.specs.Places.{most_hands};
ghost use Rattle.wm_ended.specs.Ended.{IsSessionStatus};
ghost use Rattle.wm_ended.specs.Tells.{tells_of};
ghost use Rattle.wm_faults.specs.Faults.{Failed};
ghost use Rattle.wm_keeper.specs.Store.{told_before};
ghost use Rattle.wm_live.specs.Live.{IsEndFor, LiveCause};
ghost use Rattle.wm_live_program.specs.Asks.{HasAskable};
ghost use Rattle.wm_live_program.specs.Driven.{AreAsked, IsDriven};
ghost use Rattle.wm_live_program.specs.Ended.{HasEnded, IsWritten};
ghost use Rattle.wm_live_program.specs.Reading.{AreAsksOf};
ghost use Rattle.wm_live_program.specs.Run.{IsLiveRun};
ghost use Rattle.wm_script.specs.Limits.{most_script_bytes};
ghost use Rattle.wm_seating.specs.Hands.{instances_from};
ghost use Rattle.wm_seating.specs.Idle.{IsIdle};
ghost use Rattle.wm_engine.specs.Rows.{HoldsRowsOf};

use crate::asks::read_asks;
use crate::driving::ask_all;
use crate::ended::LiveEnded;
use std::alloc::Global;
use std::marker::Brand;
use wm_asks::{Ask, StepClock};
use wm_beginning::{Begun, Loaded, ReadFault, begin, load, read_script};
use wm_bench::{Bench, Hand};
use wm_ended::{NotBegun, Status};
use wm_io::{Sink, Source, write_front};
use wm_keeper::Keeper;
use wm_live::{Live, LiveEnd};
use wm_script::{MAX_SCRIPT_BYTES, ScriptFault};
use wm_table::{Mark, Table, Trouble};
use wm_words::live_options_of;
use wm_worker::Worker;

/// Reads the asks of a script, or says with which status nothing is asked.
fn asks_of<S: Source>(alloc: Global, source: &mut S) -> Result<Vec<Ask>, Status>
    ensures asks { IfOk result (λ asks. AreAsksOf (S.left source.old) asks.items) }
    ensures askable { IfOk result (λ asks. AllByRecursion HasAskable asks.items) }
    ensures few { IfOk result (λ asks. length asks.items < 2 ^ 32) }
    ensures no_fault { OnOk result (S.faults source.new ≡ S.faults source.old) }
    ensures reads { IsTakenWithin (most_script_bytes + 1) (S.left source.old) (S.left source.new) }
    ensures status { IfErr result (λ status. IsReadStatus status
        (S.faults source.old) (S.faults source.new) (S.left source.old)) }
{
    let script = match read_script(alloc, source, MAX_SCRIPT_BYTES) {
        Ok(script) => script,
        Err(ReadFault::Failed) => return Err(Status::SourceFault),
        Err(ReadFault::Memory) => return Err(Status::Memory),
    };
    match read_asks(alloc, &script) {
        Ok(asks) => Ok(asks),
        Err(ScriptFault::TooLong(limit)) => Err(Status::ScriptTooLong(limit)),
        Err(ScriptFault::Memory) => Err(Status::Memory),
    }
}

/// Asks a test driver these, with a clock of this step that has told nothing yet, and closes it.
fn ask_and_close<K: Keeper, B: Worker, M: Mark>(
    live: Live<K, B, M>,
    asks: Vec<Ask>,
    step: u64,
) -> LiveEnd<K, B>
    requires askable { AllByRecursion HasAskable asks.items }
    requires few { length asks.items < 2 ^ 32 }
    ensures asked { AreAsked K.store step asks.items live result }
    ensures cause { LiveCause K.store live.table.keeper result }
    ensures given { IsEndFor M.inputs K.store result }
{
    let mut clock = StepClock::new(step);
    match ask_all(live, asks, &mut clock) {
        Ok(live) => live.close(),
        Err(end) => end,
    }
}

/// Opens a test driver over a table that has just begun, beside the bench of its instances, and asks it these.
fn drive<K: Keeper, B: Worker, M: Mark>(
    alloc: Global,
    table: Table<K, M>,
    bench: Bench<B>,
    asks: Vec<Ask>,
    step: u64,
) -> LiveEnd<K, B>
    requires empty { table.log ≡ [] }
    requires at_first { table.state ≡ table.first }
    requires bench { IsIdle B.kind_of table bench }
    requires askable { AllByRecursion HasAskable asks.items }
    requires few { length asks.items < 2 ^ 32 }
    ensures driven { IsDriven K.store step asks.items result }
    ensures cause { LiveCause K.store table.keeper result }
    ensures rows { HoldsRowsOf result.table.last (K.store result.table.keeper) }
    ensures given { IsEndFor M.inputs K.store result }
{
    match Live::open(alloc, table, bench) {
        Ok(live) => ask_and_close(live, asks, step),
        Err(end) => {
            drop(asks);
            end
        }
    }
}

/// Writes the text of a test driver that has ended.
fn write_text<K, W: Sink, B>(end: LiveEnd<K, B>, mut sink: W) -> LiveEnded<K, W, B>
    ensures end { result.end ≡ end }
    ensures status { IsSessionStatus result.status }
    ensures bytes { IsWritten (W.given sink) (W.given result.sink) result.status end.text.items }
    ensures done { result.status ≡ Status.Done → end.trouble ≡ None }
    ensures keeper_fault { result.status ≡ Status.KeeperFault → end.trouble ≡ Some Trouble.KeeperFault }
    ensures sink_fault { result.status ≡ Status.SinkFault → Failed (W.faults sink) (W.faults result.sink) }
{
    let written = write_front(&mut sink, &end.text).1;
    LiveEnded {
        status: Status::of_end(end.trouble, written),
        end,
        sink,
    }
}

/// Opens the rows that were loaded, and asks a test driver over them these. The mark is what it is given.
fn ask_loaded<W: Sink, K: Keeper, B: Worker, M: Mark>(
    alloc: Global,
    loaded: Loaded<K, W, B>,
    asks: Vec<Ask>,
    step: u64,
) -> Result<LiveEnded<K, W, B>, NotBegun<K, W, B>>
    requires may { MayBegin K.store B.kind_of loaded }
    requires given { IsGiven M.inputs (K.store loaded.keeper) loaded.rows.items loaded.instances
        loaded.roll.table_id }
    requires askable { AllByRecursion HasAskable asks.items }
    requires few { length asks.items < 2 ^ 32 }
    ensures begun { IfOk result (HasEnded (tells_of K.store W.given W.faults B.kind_of B.diary_of)
        step asks.items loaded.hands.items (K.store loaded.keeper).name (Some loaded.rows.items)
        loaded.keeper loaded.sink) }
    ensures not_begun { IfErr result (IsNotBegun K.store loaded.instances loaded.hands.items
        (Some loaded.rows.items) loaded.keeper loaded.sink) }
{
    match begin::<K, W, B, M>(alloc, loaded) {
        Ok(begun) => {
            let Begun { table, bench, sink } = begun;
            Ok(write_text(drive(alloc, table, bench, asks, step), sink))
        }
        Err(back) => {
            drop(asks);
            Err(back)
        }
    }
}

/// Loads the store of this name, and asks a test driver over it these.
fn ask_store<W: Sink, K: Keeper, B: Worker>(
    alloc: Global,
    store: &str,
    step: u64,
    asks: Vec<Ask>,
    hands: Vec<Hand<B>>,
    sink: W,
    keeper: K,
) -> Result<LiveEnded<K, W, B>, NotBegun<K, W, B>>
    requires few_hands { vec_len hands ≤ most_hands }
    requires askable { AllByRecursion HasAskable asks.items }
    requires few { length asks.items < 2 ^ 32 }
    ensures begun { IfOk result (λ ended. HasEnded (tells_of K.store W.given W.faults B.kind_of B.diary_of)
        step asks.items hands.items (Some store.now)
        (told_before (K.store keeper).rows (K.store ended.end.table.keeper).rows) keeper sink ended) }
    ensures not_begun { IfErr result (λ back. IsNotBegun K.store (instances_from B.kind_of 0 hands.items)
        hands.items (told_before (K.store keeper).rows (K.store back.keeper).rows) keeper sink back) }
{
    match load(alloc, store, hands, sink, keeper) {
        Ok(loaded) => ask_loaded::<W, K, B, Brand>(alloc, loaded, asks, step),
        Err(back) => {
            drop(asks);
            Err(back)
        }
    }
}

/// Does all that the program does with the first word `live`: reads the words after it, then the whole
/// script, then opens the store, and asks a test driver the script's lines, one after another. Between two
/// of them all that is startable is driven to its end. What the driver tells is written once it has ended.
///
/// A line is one of the asks `delay_met`, `period_met`, `constraints_met`, `tick` and `wake`, or a command.
/// The clock tells the step that the words give, then twice that, and so on, up to 2^53 - 1.
///
/// The workers are at most 10,000. What is promised stands in `IsLiveRun`, fact by fact; each status has its
/// cause: see [`Status`].
pub fn run_live<S: Source, W: Sink, K: Keeper, B: Worker>(
    alloc: Global,
    words: &[String],
    hands: Vec<Hand<B>>,
    source: &mut S,
    sink: W,
    keeper: K,
) -> Result<LiveEnded<K, W, B>, NotBegun<K, W, B>>
    requires few_hands { vec_len hands ≤ most_hands }
    ensures { IsLiveRun (tells_of K.store W.given W.faults B.kind_of B.diary_of) (reads_of S.left S.faults)
        (map string_bytes words.now) hands.items source.old source.new keeper sink result }
{
    let Some(options) = live_options_of(words) else {
        return Err(NotBegun::before_opening(Status::Usage, keeper, sink, hands));
    };
    match asks_of(alloc, source) {
        Ok(asks) => ask_store(
            alloc,
            options.store,
            options.step,
            asks,
            hands,
            sink,
            keeper,
        ),
        Err(status) => Err(NotBegun::before_opening(status, keeper, sink, hands)),
    }
}
