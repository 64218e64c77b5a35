//! The program `work`: a script of JSON lines comes in on standard input, replies go out on
//! standard output, a store keeps the work, and boxed workers do it; or an audit goes out, or comes in
//! and is checked. All that it promises is the contract of [`wm_outcome::program`].
#![tactic(auto)]

use std::alloc::{AllocError, Global};
use std::process::ExitCode;
use std::rt::Env;
use std::sync::Wait;
use std::thread::Threads;
use wm_bench::Hand;
use wm_collections::Text;
use wm_io::{Sink, Source, StdSink, StdSource};
use wm_keeper::Keeper;
use wm_outcome::{exit_after, program};
use wm_pool::OpenGate;
use wm_program::{exit, words};
use wm_sqlite::FileKeeper;
use wm_stock::{AnyStock, STOCK_WORKERS};

/// Does what these words ask for with the stock workers, a few of each kind, whose classes are named as
/// their kinds, and gives the exit status.
fn run<
    R: Threads + Wait + Sync + Eprint,
    S: Source,
    W: Sink + Send + Drop,
    K: Keeper + Send + Drop,
>(
    rt: &R,
    alloc: Global,
    words: &[String],
    source: &mut S,
    sink: W,
    keeper: K,
) -> Result<ExitCode, AllocError> {
    let mut hands: Vec<Hand> = Vec::new(alloc);
    for number in 0..STOCK_WORKERS {
        let worker = AnyStock::numbered(number);
        let class = Text::from_str(alloc, worker.name())?;
        let worker = Box::new(alloc, worker)?;
        hands.push(Hand { class, worker })?;
    }
    let outcome = program(rt, alloc, words, hands, source, sink, keeper, &OpenGate);
    Ok(exit_after(rt, alloc, &outcome))
}

/// Does what the words of the command line ask for.
fn run_words<
    R: Threads + Wait + Sync + Env + Eprint + AllocGlobal,
    S: Source,
    W: Sink + Send + Drop,
    K: Keeper + Send + Drop,
>(rt: &R, source: &mut S, sink: W, keeper: K) -> Result<ExitCode, AllocError> {
    let words = words(rt)?;
    run(rt, rt.alloc(), &words, source, sink, keeper)
}

/// Does what the words of the command line ask for, over standard input and output, and the store that
/// they name. The streams are those of the host, which has threads only here.
fn main(rt: HostRuntime) -> ExitCode {
    let mut source = StdSource::new(rt.stdin());
    let sink = StdSink::new(rt.stdout());
    match run_words(&rt, &mut source, sink, FileKeeper::new(&rt)) {
        Ok(code) => code,
        Err(refused) => exit(&rt, rt.alloc(), Err(refused)),
    }
}
