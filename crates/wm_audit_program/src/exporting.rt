//! The export of the audit of a run.
ghost use Rattle.std.specs.List.{AllByRecursion};
ghost use Rattle.std.specs.Prelude.{◌≡◌, ◌↔◌, ◌≤◌, map, string_bytes, vec_len, IsTrue};
ghost use Rattle.wm_audit.specs.Exported.{IsOpened};
ghost use Rattle.wm_audit_program.specs.Exported.{IsAuditWritten, IsExported};
ghost use Rattle.wm_audit_program.specs.Written.{takes_of};
ghost use Rattle.wm_audit_text.specs.Lines.{HasCanonical};
ghost use Rattle.wm_bench.specs.Places.{most_hands};
ghost use Rattle.wm_beginning.specs.Reading.{reads_of};
ghost use Rattle.wm_ended.specs.Tells.{tells_of};

use crate::sure::SureSink;
use crate::writing::write_text;
use std::alloc::Global;
use std::sync::Wait;
use std::thread::Threads;
use wm_audit::export;
use wm_bench::Hand;
use wm_cli::{Ended, Status, run};
use wm_io::{Sink, Source, WriteFault};
use wm_keeper::Keeper;
use wm_machine::{Event, State};
use wm_pool::Gate;
use wm_worker::Worker;

/// What an export hands back.
#[derive(Drop)]
pub struct Exported<K, W, B = Box<dyn Worker + Send>> {
    /// The run that it exports, with the sink in memory that the run wrote to.
    pub ended: Ended<K, SureSink, B>,
    /// How the export ended.
    pub status: Status,
    pub sink: W,
}

/// Does all that `wm_cli::run` does with these words, those after `export`, but writes into memory, and
/// where the run is done writes the audit of it to the sink. What is promised stands in `IsExported`, fact
/// by fact. Each status has its cause: see [`Status`]. With threads, that the call returns isn't promised.
pub fn export_run<
    R: Threads + Wait + Sync,
    S: Source,
    W: Sink,
    K: Keeper + Send,
    B: Worker + Send,
    G: Gate + Sync,
>(
    rt: &R,
    alloc: Global,
    words: &[String],
    hands: Vec<Hand<B>>,
    source: &mut S,
    sink: W,
    keeper: K,
    gate: &G,
) -> Exported<K, W, B>
    requires few_hands { vec_len hands ≤ most_hands }
    ensures { IsExported (tells_of K.store W.given W.faults B.kind_of B.diary_of) (reads_of S.left S.faults)
        (map string_bytes words.now) hands.items source.old source.new keeper sink result }
{
    let memory = SureSink::new(alloc);
    let ended = run(rt, alloc, words, hands, source, memory, keeper, gate);
    if !is_done(ended.status) {
        let status = ended.status;
        return Exported {
            ended,
            status,
            sink,
        };
    }
    let mut sink = sink;
    let text = ended.sink.bytes();
    let status = write_audit(alloc, &ended.first, ended.log.as_slice(), text, &mut sink);
    Exported {
        ended,
        status,
        sink,
    }
}

/// Whether a run is done.
fn is_done(status: Status) -> bool
    ensures { IsTrue result ↔ (status ≡ Status.Done) }
{
    matches!(status, Status::Done)
}

/// Writes the audit of a run to a sink: of its first state, its log and what was written for it.
fn write_audit<W: Sink>(
    alloc: Global,
    first: &State,
    log: &[Event],
    text: &[u8],
    sink: &mut W,
) -> Status
    requires opened { IsOpened first.now }
    requires canonical { AllByRecursion HasCanonical log.now }
    ensures { IsAuditWritten (takes_of W.given W.faults) first.entry.now log.now text.now sink.old sink.new result }
{
    match export(alloc, first, log, text) {
        Ok(audit) => match write_text(sink, &audit) {
            Ok(()) => Status::Done,
            Err(WriteFault::Failed) => Status::SinkFault,
            Err(WriteFault::Memory) => Status::Memory,
        },
        Err(_) => Status::Memory,
    }
}
