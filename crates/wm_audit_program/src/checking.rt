//! The check of an audit that comes from a source.
ghost use Rattle.std.specs.Prelude.{◌≡◌, ◌+◌, ◌≤◌, length, map, string_bytes, IfOk, IfErr, OnOk};
ghost use Rattle.wm_audit_program.specs.Checked.{most_audit_bytes, IsChecked};
ghost use Rattle.wm_audit_program.specs.Read.{IsReadAs, IsReadBy, IsToldBy};
ghost use Rattle.wm_audit_program.specs.Written.{takes_of};
ghost use Rattle.wm_beginning.specs.Reading.{reads_of};
ghost use Rattle.wm_beginning.specs.Script.{IsTakenWithin};

use crate::judging::judge;
use crate::status::CheckStatus;
use crate::writing::write_text;
use std::alloc::Global;
use wm_beginning::{ReadFault, read_script};
use wm_io::{Sink, Source, WriteFault};

/// The most bytes of an audit.
const MAX_AUDIT_BYTES: usize = 67_108_864;

/// What a check hands back.
#[derive(Drop)]
pub struct Checked<K, W> {
    /// How it ended.
    pub status: CheckStatus,
    /// The keeper, as it was.
    pub keeper: K,
    pub sink: W,
}

/// Checks the audit that the source has left, read to its end, and writes the verdict on it to the sink,
/// as a line. The words are those after `check`; with any the status is Usage. The keeper isn't called.
/// What is promised stands in `IsChecked`, fact by fact. Each status has its cause: see [`CheckStatus`].
pub fn check_source<S: Source, W: Sink, K>(
    alloc: Global,
    words: &[String],
    source: &mut S,
    sink: W,
    keeper: K,
) -> Checked<K, W>
    ensures { IsChecked (reads_of S.left S.faults) (takes_of W.given W.faults) (map string_bytes words.now)
        source.old source.new keeper sink result }
{
    if !words.is_empty() {
        return Checked {
            status: CheckStatus::Usage,
            keeper,
            sink,
        };
    }
    let bytes = match read_audit(alloc, source) {
        Ok(bytes) => bytes,
        Err(status) => {
            return Checked {
                status,
                keeper,
                sink,
            };
        }
    };
    let mut sink = sink;
    let status = told(alloc, &bytes, &mut sink);
    Checked {
        status,
        keeper,
        sink,
    }
}

/// The bytes of the audit that the source has left, all of them; or how a check ends without them.
fn read_audit<S: Source>(alloc: Global, source: &mut S) -> Result<Vec<u8>, CheckStatus>
    ensures reads { IsTakenWithin (most_audit_bytes + 1) (S.left source.old) (S.left source.new) }
    ensures bytes { IfOk result (λ bytes. IsReadAs (S.left source.old) bytes.items) }
    ensures no_fault { OnOk result (S.faults source.new ≡ S.faults source.old) }
    ensures status { IfErr result (λ status. IsReadBy status
        (S.faults source.old) (S.faults source.new) (S.left source.old)) }
{
    let bytes = match read_script(alloc, source, MAX_AUDIT_BYTES) {
        Ok(bytes) => bytes,
        Err(ReadFault::Failed) => return Err(CheckStatus::SourceFault),
        Err(ReadFault::Memory) => return Err(CheckStatus::Memory),
    };
    if bytes.len() > MAX_AUDIT_BYTES {
        Err(CheckStatus::TooLong)
    } else {
        Ok(bytes)
    }
}

/// Writes the verdict on the bytes of an audit to the sink, and tells how the check ends.
fn told<W: Sink>(alloc: Global, bytes: &[u8], sink: &mut W) -> CheckStatus
    ensures { IsToldBy (takes_of W.given W.faults) bytes.now result sink.old sink.new }
{
    match judge(alloc, bytes) {
        Ok(judged) => match write_text(sink, &judged.line) {
            Ok(()) => judged.status,
            Err(WriteFault::Failed) => CheckStatus::SinkFault,
            Err(WriteFault::Memory) => CheckStatus::Memory,
        },
        Err(_) => CheckStatus::Memory,
    }
}
