//! The top call of the program, by its first word.
ghost use Rattle.std.specs.Prelude.{◌≡◌, ◌∷◌, ◌≤◌, codes, map, string_bytes, vec_len};
ghost use Rattle.wm_bench.specs.Places.{most_hands};
ghost use Rattle.wm_beginning.specs.Reading.{reads_of};
ghost use Rattle.wm_outcome.specs.Asked.{IsAsked};
ghost use Rattle.wm_outcome.specs.Outcomes.{live_outcome, IsOutcome};
ghost use Rattle.wm_ended.specs.Tells.{tells_of};

use crate::outcome::Outcome;
use std::alloc::Global;
use std::sync::Wait;
use std::thread::Threads;
use wm_audit_program::{check_source, export_run};
use wm_bench::Hand;
use wm_callers_program::run_callers;
use wm_cli::run;
use wm_ended::NotBegun;
use wm_io::{Sink, Source};
use wm_keeper::Keeper;
use wm_live_program::{LiveEnded, run_live};
use wm_pool::Gate;
use wm_worker::Worker;

/// What the words ask for, by the first of them.
#[derive(Clone, Copy)]
pub(crate) enum Asked<'w> {
    /// A run, with all of them.
    Run,
    /// An export, with those after it.
    Export(&'w [String]),
    /// A check, with those after it.
    Check(&'w [String]),
    /// A test driver, with those after it.
    Live(&'w [String]),
    /// Callers, with those after it.
    Callers(&'w [String]),
}

/// What the words ask for.
fn asked_by(words: &[String]) -> Asked<'_>
    ensures { IsAsked (map string_bytes words.now) result }
{
    let Some((first, others)) = words.split_first() else {
        return Asked::Run;
    };
    match first.as_str() {
        "export" => Asked::Export(others),
        "check" => Asked::Check(others),
        "live" => Asked::Live(others),
        "callers" => Asked::Callers(others),
        _ => Asked::Run,
    }
}

/// The outcome of a test driver, whether its table was begun or wasn't.
fn live_outcome<K, W, B>(came: Result<LiveEnded<K, W, B>, NotBegun<K, W, B>>) -> Outcome<K, W, B>
    ensures { result ≡ live_outcome came }
{
    match came {
        Ok(ended) => Outcome::Live(ended),
        Err(back) => Outcome::LiveNotBegun(back),
    }
}

/// Does all that the program does: with the first word `export` it exports what a run with the other
/// words does, with the first word `check` it checks the audit that the source has left, with the first
/// word `live` it asks a test driver the lines of a script, with the first word `callers` it has callers
/// call them, and else it is a run with these words. The workers are at most 10,000. What is promised stands in `IsOutcome`, by the
/// first word. With threads, that the call returns isn't promised.
pub fn program<
    R: Threads + Wait + Sync,
    S: Source,
    W: Sink + Send,
    K: Keeper + Send,
    B: Worker + Send,
    G: Gate + Sync,
>(
    rt: &R,
    alloc: Global,
    words: &[String],
    hands: Vec<Hand<B>>,
    source: &mut S,
    sink: W,
    keeper: K,
    gate: &G,
) -> Outcome<K, W, B>
    requires few_hands { vec_len hands ≤ most_hands }
    ensures { IsOutcome (tells_of K.store W.given W.faults B.kind_of B.diary_of) (reads_of S.left S.faults)
        (map string_bytes words.now) hands.items source.old source.new keeper sink result }
{
    match asked_by(words) {
        Asked::Run => Outcome::Run(run(rt, alloc, words, hands, source, sink, keeper, gate)),
        Asked::Export(others) => Outcome::Export(export_run(
            rt, alloc, others, hands, source, sink, keeper, gate,
        )),
        Asked::Check(others) => Outcome::Check(check_source(alloc, others, source, sink, keeper)),
        Asked::Live(others) => live_outcome(run_live(alloc, others, hands, source, sink, keeper)),
        Asked::Callers(others) => Outcome::Callers(run_callers(
            rt, alloc, others, hands, source, sink, keeper, gate,
        )),
    }
}
