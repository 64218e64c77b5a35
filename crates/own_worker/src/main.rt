//! A program of a user's own, which `docs/LIBRARY.md` goes through: it runs two scripts that it has in
//! memory, with workers of its own beside a stock one, and places works that it requests by calls.
//!
//! With the word `talk` it then talks: each line of standard input is answered before the next one is
//! read, over a store in a file, whose name is the next word ([`own_driver`]).
//!
//! With other words it is measured, over a store in memory. It runs the script on standard input with
//! four workers of class `Busy`, each of whose turns takes a processor a millisecond or so, which tells
//! what threads gain (`bench/pool.sh`); and what a seed gives, where the words have one, with the stock
//! workers, which tells what an engine takes without files (`bench/plain.sh`).
#![tactic(auto)]

ghost use Rattle.std.specs.Prelude.{◌≤◌, vec_len};
ghost use Rattle.wm_bench.specs.Places.{most_hands};

mod busy;
mod photos;
mod resizer;

use crate::busy::{BUSY_WORKERS, Busy, busy_hands};
use crate::resizer::Resizer;
use own_driver::{Lines, open};
use std::alloc::{AllocError, Global};
use std::io;
use std::process::ExitCode;
use std::rt::Clock;
use std::sync::Wait;
use std::thread::Threads;
use wm_bench::Hand;
use wm_cli::Status;
use wm_collections::Text;
use wm_io::{MemorySink, MemorySource, Sink, Source, StdSink, StdSource};
use wm_keeper::{Keeper, SureKeeper};
use wm_pool::OpenGate;
use wm_program::{exit, stock_hands};
use wm_sqlite::FileKeeper;
use wm_stock::Echo;
use wm_worker::{Simple, Worker};

/// The words of a run without threads.
const ALONE: [&str; 2] = ["--store", "photos"];

/// A photo is resized, and what comes of that is echoed.
const RESIZE: &str =
    r#"{"cmd":"enqueue","layers":[[{"id":"00000000-0000-0000-0000-000000000001","class":"Resize","input":{"width":{"int":800}}}],[{"id":"00000000-0000-0000-0000-000000000002","class":"Echo"}]]}
{"cmd":"query"}
"#;

/// The words of a run with four threads.
const IN_THREADS: [&str; 4] = ["--store", "busy", "--workers", "4"];

/// Four works of three turns each are driven beside each other.
const BUSY: &str = r#"{"cmd":"hush"}
{"cmd":"enqueue","works":[{"class":"Busy","id":"00000000-0000-0000-0000-000000000001","input":{"turns":{"int":3}}},{"class":"Busy","id":"00000000-0000-0000-0000-000000000002","input":{"turns":{"int":3}}},{"class":"Busy","id":"00000000-0000-0000-0000-000000000003","input":{"turns":{"int":3}}},{"class":"Busy","id":"00000000-0000-0000-0000-000000000004","input":{"turns":{"int":3}}}]}
{"cmd":"settle"}
{"cmd":"summary"}
"#;

/// The word that asks for a talk.
const TALK: &str = "talk";

/// The name of the store of a talk, where the words have none.
const STORE: &str = "talk";

/// These words, as a command line has them.
fn words_of(alloc: Global, words: &[&str]) -> Result<Vec<String>, AllocError> {
    let mut all = Vec::new(alloc);
    for word in words {
        all.push(String::from_str(alloc, word)?)?;
    }
    Ok(all)
}

/// Runs a script with these words, with workers of its own and one Echo, over streams and a store in
/// memory, and gives the exit status that the run would have, and what it wrote.
fn run<R: Threads + Wait + Sync>(
    rt: &R,
    alloc: Global,
    words: &[String],
    script: &str,
) -> Result<(u8, Vec<u8>), AllocError> {
    let mut hands: Vec<Hand> = Vec::new(alloc);
    for _number in 0..BUSY_WORKERS {
        let class = Text::from_str(alloc, "Busy")?;
        let worker = Box::new(alloc, Simple::new(Busy))?;
        hands.push(Hand { class, worker })?;
    }
    let class = Text::from_str(alloc, "Resize")?;
    let worker = Box::new(alloc, Simple::new(Resizer))?;
    hands.push(Hand { class, worker })?;
    let class = Text::from_str(alloc, "Echo")?;
    let worker = Box::new(alloc, Echo::new())?;
    hands.push(Hand { class, worker })?;
    let script = Vec::from_slice(alloc, script.as_bytes())?;
    let mut source = MemorySource::new(script, 4096, Vec::new(alloc));
    let sink = MemorySink::new(4096, Vec::new(alloc));
    let keeper = SureKeeper::new(Vec::new(alloc));
    let ended = wm_cli::run(
        rt,
        alloc,
        words,
        hands,
        &mut source,
        sink,
        keeper,
        &OpenGate,
    );
    let code = ended.status.code();
    let written = Vec::from_slice(alloc, ended.sink.bytes());
    drop(ended);
    Ok((code, written?))
}

/// How many works that are requested by calls are placed, as text; none where memory is refused.
fn placed(alloc: Global) -> Option<String> {
    let count = photos::place(alloc, photos::photos(alloc)?)?;
    format!(in alloc; "{count} works are placed").ok()
}

/// Runs a script of the program's own with these words, prints what it wrote, and gives the exit
/// status that the run would have.
fn print_run<R: Threads + Wait + Sync + Print>(
    rt: &R,
    alloc: Global,
    words: &[&str],
    script: &str,
) -> io::Result<u8> {
    let words = words_of(alloc, words)?;
    let (code, written) = run(rt, alloc, &words, script)?;
    rt.print(String::from_utf8_lossy(alloc, &written)?)?;
    Ok(code)
}

/// Prints what comes of the program's own scripts and requests, and gives the exit status of a run that
/// went wrong, if one did.
fn print_own<R: Threads + Wait + Sync + Print>(rt: &R, alloc: Global) -> io::Result<u8> {
    let resized = print_run(rt, alloc, &ALONE, RESIZE)?;
    rt.println(placed(alloc).as_deref().unwrap_or("out of memory"))?;
    let busy = print_run(rt, alloc, &IN_THREADS, BUSY)?;
    Ok(resized.max(busy))
}

/// The name of the store to talk over, where these words ask for a talk.
fn store_of(words: &[String]) -> Option<&str> {
    if words.first()?.as_str() != TALK {
        return None;
    }
    match words.get(1) {
        Some(store) => Some(store.as_str()),
        None => Some(STORE),
    }
}

/// Talks over the store of this name, with the stock workers.
fn talk<R: Clock, S: Source, W: Sink, K: Keeper + Drop>(
    rt: &R,
    alloc: Global,
    store: &str,
    keeper: K,
    lines: &mut Lines<S>,
    sink: &mut W,
) -> Result<Status, AllocError> {
    let hands = stock_hands(alloc)?;
    match open(rt, alloc, store, keeper, hands, lines, sink) {
        Ok(()) => Ok(Status::Done),
        Err(status) => Ok(status),
    }
}

/// Runs a script with these words and workers, over a store in memory.
fn run_in_memory<R: Threads + Wait + Sync, S: Source, W: Sink + Send + Drop, B: Worker + Send>(
    rt: &R,
    alloc: Global,
    words: &[String],
    hands: Vec<Hand<B>>,
    source: &mut S,
    sink: W,
) -> Status
    requires { vec_len hands ≤ most_hands }
{
    let keeper = SureKeeper::new(Vec::new(alloc));
    wm_cli::run(rt, alloc, words, hands, source, sink, keeper, &OpenGate).status
}

/// Runs what these words ask for: with the stock workers where they give a seed, and else with the
/// busy ones.
fn run_measured<R: Threads + Wait + Sync, S: Source, W: Sink + Send + Drop>(
    rt: &R,
    alloc: Global,
    words: &[String],
    source: &mut S,
    sink: W,
) -> Result<Status, AllocError> {
    if words.iter().any(|word| word.as_str() == "--generate") {
        let hands = stock_hands(alloc)?;
        Ok(run_in_memory(rt, alloc, words, hands, source, sink))
    } else {
        let hands = busy_hands(alloc)?;
        Ok(run_in_memory(rt, alloc, words, hands, source, sink))
    }
}

fn main(rt: HostRuntime) -> io::Result<ExitCode> {
    let alloc = rt.alloc();
    let words = wm_program::words(&rt)?;
    let ran = if let Some(store) = store_of(&words) {
        print_own(&rt, alloc)?;
        let mut lines = Lines::new(alloc, StdSource::new(rt.stdin()));
        let mut sink = StdSink::new(rt.stdout());
        talk(
            &rt,
            alloc,
            store,
            FileKeeper::new(&rt),
            &mut lines,
            &mut sink,
        )
    } else if words.is_empty() {
        return Ok(ExitCode::from(print_own(&rt, alloc)?));
    } else {
        let mut source = StdSource::new(rt.stdin());
        run_measured(&rt, alloc, &words, &mut source, StdSink::new(rt.stdout()))
    };
    Ok(exit(&rt, alloc, ran))
}
