//! The top call: all that the program does, with its contract.
ghost use Rattle.std.specs.List.{AllByRecursion};
ghost use Rattle.std.specs.Prelude.{◌≡◌, ◌+◌, ◌≤◌, ◌<◌, ◌^◌, ℕ, true, length, map, vec_len, None, Some, Err, IfOk, IfErr, IfSome, OnOk, string_bytes};
ghost use Rattle.wm_beginning.specs.Begun.{AreInputs};
ghost use Rattle.wm_beginning.specs.Loading.{MayBegin};
ghost use Rattle.wm_beginning.specs.NotBegun.{IsNotBegun};
ghost use Rattle.wm_beginning.specs.Reading.{ForScript, IsReadStatus, reads_of};
ghost use Rattle.wm_beginning.specs.Script.{IsTakenWithin};
ghost use Rattle.wm_bench.specs.Places.{idle_hands, most_hands};
ghost use Rattle.wm_cli.specs.Ended.{IsRunEnd};
ghost use Rattle.wm_cli.specs.Lines.{lines_of};
ghost use Rattle.wm_cli.specs.Run.{IsRun};
ghost use Rattle.wm_cli.specs.Setup.{IsSetUp};
ghost use Rattle.wm_ended.specs.Tells.{tells_of};
ghost use Rattle.wm_faults.specs.Faults.{Failed};
ghost use Rattle.wm_keeper.specs.Store.{told_before};
ghost use Rattle.wm_machine.specs.Outcome.{IsAskable};
ghost use Rattle.wm_script.specs.Limits.{first_limit, most_script_bytes};
ghost use Rattle.wm_session.specs.BetweenRuns.{IsAtBegin};
ghost use Rattle.wm_session.specs.Ended.{IsBookEnd, IsSerialEnd};
ghost use Rattle.wm_words.specs.Run.{options_of};

use crate::beginning::open_book;
use crate::pool::run_pool;
use std::alloc::Global;
use std::marker::Brand;
use std::sync::Wait;
use std::thread::Threads;
use wm_beginning::{Begun, Loaded, begin, load, read_commands};
use wm_bench::Hand;
use wm_collections::Items;
use wm_ended::NotBegun;
use wm_generator::generate;
use wm_io::{Sink, Source};
use wm_keeper::Keeper;
use wm_machine::Command;
use wm_pool::Gate;
use wm_session::{Book, Ended, Status, run_serial};
use wm_table::Mark;
use wm_words::{Origin, options_of};
use wm_worker::Worker;

/// How many groups of works a seed gives.
const GENERATED_GROUPS: u32 = 400;

/// What a run works with beside its parts: the runtime of its threads, the gate that they pass, and
/// how many of them drive works.
#[derive(Drop)]
struct Crew<'a, R, G> {
    rt: &'a R,
    alloc: Global,
    gate: &'a G,
    workers: u32,
    ghost few: { workers ≤ 64 },
}

/// The lines of a run, those of the script or those that a seed gives, for which the source isn't
/// read; or with which status a run ends without them.
fn lines_of<S: Source>(
    alloc: Global,
    origin: Origin,
    source: &mut S,
) -> Result<Items<Command>, Status>
    ensures lines { IfOk result (λ lines. ForScript (S.left source.old) (λ bytes. lines ≡ lines_of origin bytes)) }
    ensures askable { IfOk result (AllByRecursion IsAskable) }
    ensures few { IfOk result (λ lines. length lines < 2 ^ 32) }
    ensures within { OnOk result (origin ≡ Origin.Script
        → IfSome (S.left source.old) (λ all. first_limit all ≡ None)) }
    ensures no_fault { OnOk result (S.faults source.new ≡ S.faults source.old) }
    ensures reads { IsTakenWithin (most_script_bytes + 1) (S.left source.old) (S.left source.new) }
    ensures status { IfErr result (λ status. IsReadStatus status
        (S.faults source.old) (S.faults source.new) (S.left source.old)) }
    // Of a seed the source isn't read.
    ensures generated { (seed : ℕ) → origin ≡ Origin.Seed seed → source.new ≡ source.old }
    ensures generated_status { IfErr result (λ status. (seed : ℕ) → origin ≡ Origin.Seed seed
        → status ≡ Status.Memory) }
{
    match origin {
        Origin::Script => read_commands(alloc, source),
        Origin::Seed(seed) => match generate(alloc, seed, GENERATED_GROUPS) {
            Ok(commands) => Ok(commands),
            Err(_) => Err(Status::Memory),
        },
    }
}

/// Loads the store of this name, opens it and executes the commands on it.
fn run_commands<
    W: Sink + Send,
    K: Keeper + Send,
    B: Worker + Send,
    R: Threads + Wait + Sync,
    G: Gate + Sync,
>(
    crew: &Crew<'_, R, G>,
    store: &str,
    commands: Items<Command>,
    hands: Vec<Hand<B>>,
    sink: W,
    keeper: K,
) -> Ended<K, W, B>
    requires few_hands { vec_len hands ≤ most_hands }
    requires askable { AllByRecursion IsAskable commands }
    requires few { length commands < 2 ^ 32 }
    ensures { IsRunEnd (tells_of K.store W.given W.faults B.kind_of B.diary_of)
        crew.now.workers commands hands.items (Some store.now)
        (told_before (K.store keeper).rows (K.store result.keeper).rows)
        (K.store keeper).rows keeper sink result }
{
    let loaded = match load(crew.alloc, store, hands, sink, keeper) {
        Ok(loaded) => loaded,
        Err(back) => {
            drop(commands);
            return Ended::unbegun(crew.alloc, back);
        }
    };
    match run_loaded::<W, K, B, Brand, R, G>(crew, loaded, commands) {
        Ok(ended) => ended,
        Err(back) => Ended::unbegun(crew.alloc, back),
    }
}

/// Opens the rows that were loaded, and executes the commands on them, with the workers. The mark is
/// what the run is given.
fn run_loaded<
    W: Sink + Send,
    K: Keeper + Send,
    B: Worker + Send,
    M: Mark + Send + Sync,
    R: Threads + Wait + Sync,
    G: Gate + Sync,
>(
    crew: &Crew<'_, R, G>,
    loaded: Loaded<K, W, B>,
    commands: Items<Command>,
) -> Result<Ended<K, W, B>, NotBegun<K, W, B>>
    requires may { MayBegin K.store B.kind_of loaded }
    requires inputs { AreInputs (tells_of K.store W.given W.faults B.kind_of B.diary_of) M.inputs loaded commands }
    requires askable { AllByRecursion IsAskable commands }
    requires few { length commands < 2 ^ 32 }
    ensures began { IfOk result (λ ended. ended.began ≡ true) }
    ensures begun { IfOk result (IsRunEnd (tells_of K.store W.given W.faults B.kind_of B.diary_of)
        crew.now.workers commands loaded.hands.items (K.store loaded.keeper).name
        (Some loaded.rows.items) (Some loaded.rows.items) loaded.keeper loaded.sink) }
    ensures not_begun { IfErr result (IsNotBegun K.store loaded.instances loaded.hands.items
        (Some loaded.rows.items) loaded.keeper loaded.sink) }
{
    match begin::<K, W, B, M>(crew.alloc, loaded) {
        Ok(begun) => Ok(run_begun(crew, begun, commands)),
        Err(back) => {
            drop(commands);
            Err(back)
        }
    }
}

/// Executes the commands on a table that has just begun.
fn run_begun<
    W: Sink + Send,
    K: Keeper + Send,
    B: Worker + Send,
    M: Mark + Send + Sync,
    R: Threads + Wait + Sync,
    G: Gate + Sync,
>(crew: &Crew<'_, R, G>, begun: Begun<K, W, B, M>, commands: Items<Command>) -> Ended<K, W, B>
    requires set_up { IsSetUp (tells_of K.store W.given W.faults B.kind_of B.diary_of) M.inputs commands
        begun.table begun.bench begun.sink }
    ensures end { IsBookEnd (tells_of K.store W.given W.faults B.kind_of B.diary_of)
        M.inputs result }
    ensures serial { crew.now.workers ≡ 0
        → IsSerialEnd (tells_of K.store W.given W.faults B.kind_of B.diary_of)
        M.inputs (idle_hands begun.bench) result }
{
    match open_book(crew.alloc, begun, commands) {
        Ok(book) => run_book(crew, book),
        Err(ended) => ended,
    }
}

/// Executes the lines of a book that begins: with worker threads, where there are some, and else one
/// after another.
fn run_book<
    W: Sink + Send,
    K: Keeper + Send,
    B: Worker + Send,
    M: Mark + Send + Sync,
    R: Threads + Wait + Sync,
    G: Gate + Sync,
>(crew: &Crew<'_, R, G>, book: Book<K, W, B, M>) -> Ended<K, W, B>
    requires begins { IsAtBegin M.inputs.lines book }
    ensures end { IsBookEnd (tells_of K.store W.given W.faults B.kind_of B.diary_of)
        M.inputs result }
    ensures serial { crew.now.workers ≡ 0
        → IsSerialEnd (tells_of K.store W.given W.faults B.kind_of B.diary_of)
        M.inputs (idle_hands book.places) result }
{
    if crew.workers == 0 {
        run_serial(crew.alloc, book, crew.gate)
    } else {
        run_pool(crew.rt, crew.alloc, book, crew.workers, crew.gate)
    }
}

/// Does all that the program does: reads the words, then the whole script, then opens the store,
/// and executes the script's commands one after another, writing the reply to each. Where the words
/// give a seed, the commands are those that it gives with 400 groups, and the source isn't read.
/// Where the words ask for no threads, the works that may start are driven to their ends by the
/// workers after each command. Where they ask for some, each of them drives one work after another
/// meanwhile.
///
/// The words are those of the command line after the program's name. The workers are boxed by
/// whoever calls, or of any one type; they are of any kinds, and at most 10,000. The gate is passed
/// before each command and before each turn of a worker. What comes back is how the run ended, with
/// the log of its events between the first state and the last, the keeper, the sink and the workers.
/// What is promised of it stands in `IsRun`, fact by fact. Each status has its cause: see [`Status`].
/// With threads, that the call returns isn't promised.
pub fn run<
    R: Threads + Wait + Sync,
    S: Source,
    W: Sink + Send,
    K: Keeper + Send,
    B: Worker + Send,
    G: Gate + Sync,
>(
    rt: &R,
    alloc: Global,
    words: &[String],
    hands: Vec<Hand<B>>,
    source: &mut S,
    sink: W,
    keeper: K,
    gate: &G,
) -> Ended<K, W, B>
    requires few_hands { vec_len hands ≤ most_hands }
    ensures { IsRun (tells_of K.store W.given W.faults B.kind_of B.diary_of) (reads_of S.left S.faults)
        (map string_bytes words.now) hands.items source.old source.new keeper sink result }
{
    let Some(options) = options_of(words) else {
        return Ended::before_begin(alloc, Status::Usage, keeper, sink, hands);
    };
    match lines_of(alloc, options.origin, source) {
        Ok(commands) => {
            let crew = Crew {
                rt,
                alloc,
                gate,
                workers: options.workers,
            };
            run_commands(&crew, options.store, commands, hands, sink, keeper)
        }
        Err(status) => Ended::before_begin(alloc, status, keeper, sink, hands),
    }
}
