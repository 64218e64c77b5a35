//! The reading of a script from its source, to its end or past its limit, and of its commands.
ghost use Rattle.std.specs.List.{AllByRecursion};
ghost use Rattle.std.specs.Prelude.{◌≡◌, ◌+◌, ◌<◌, ◌≤◌, ◌^◌, length, IfErr, IfOk, OnOk};
ghost use Rattle.wm_beginning.specs.Reading.{AreCommandsOf, IsReadStatus};
ghost use Rattle.wm_beginning.specs.Script.{IsPieceOf, IsReadFrom, IsTakenWithin, ReadCause};
ghost use Rattle.wm_machine.specs.Outcome.{IsAskable};
ghost use Rattle.wm_script.specs.Limits.{most_script_bytes};

use std::alloc::{AllocError, Global};
use wm_collections::Items;
use wm_ended::Status;
use wm_io::{Got, Source};
use wm_machine::Command;
use wm_script::{Limit, MAX_SCRIPT_BYTES, ScriptFault, read_lines};

/// How many bytes are asked for in one read.
const PIECE_BYTES: usize = 65_536;

/// Why a script wasn't read.
#[derive(Clone, Copy, Debug, PartialEq, Eq)]
pub enum ReadFault {
    /// The source failed.
    Failed,
    /// Memory was refused.
    Memory,
}

impl From<AllocError> for ReadFault {
    ghost use Rattle.wm_beginning.specs.declared.script.ReadFault.TheVariants.{Memory};

    ghost from_gives = { λ _ fault. fault ≡ Memory };

    fn from(_refused: AllocError) -> ReadFault {
        ReadFault::Memory
    }
}

/// Reads a script to its end, or to the first byte past this limit on its bytes.
pub fn read_script<S: Source>(
    alloc: Global,
    source: &mut S,
    most_bytes: usize,
) -> Result<Vec<u8>, ReadFault>
    ensures bytes { IfOk result
        (λ script. IsReadFrom most_bytes (S.left source.old) (S.left source.new) script.items) }
    ensures reads { IsTakenWithin (most_bytes + 1) (S.left source.old) (S.left source.new) }
    ensures within { IfOk result (λ script. length script.items ≤ most_bytes + 1) }
    ensures cause { ReadCause result (S.faults source.old) (S.faults source.new) }
{
    let mut script = Vec::new(alloc);
    let mut buffer = [0u8; PIECE_BYTES];
    'pieces: while script.len() <= most_bytes {
        let room = (most_bytes - script.len()).min(PIECE_BYTES - 1) + 1;
        if read_piece(source, &mut buffer[..room], &mut script)? {
            return Ok(script);
        }
    }
    Ok(script)
}

/// Reads one piece onto the end of a script, and answers whether the source is at its end.
fn read_piece<S: Source>(
    source: &mut S,
    into: &mut [u8],
    script: &mut Vec<u8>,
) -> Result<bool, ReadFault>
    requires { 0 < length into.old }
    ensures bytes { IsPieceOf result (S.left source.old) (S.left source.new)
        script.old.items script.new.items (length into.old) }
    ensures cause { ReadCause result (S.faults source.old) (S.faults source.new) }
{
    match source.read(into) {
        Got::Some(count) => {
            script.extend_from_slice(&into[..count])?;
            Ok(false)
        }
        Got::End => Ok(true),
        Got::Failed => Err(ReadFault::Failed),
    }
}

/// Reads the commands of a script, or says with which status a run ends without them.
#[tactic(auto, using(crate::proofs::ScriptLimits::read_whole))]
pub fn read_commands<S: Source>(alloc: Global, source: &mut S) -> Result<Items<Command>, Status>
    ensures commands { IfOk result (AreCommandsOf (S.left source.old)) }
    ensures askable { IfOk result (AllByRecursion IsAskable) }
    ensures few { IfOk result (λ commands. length commands < 2 ^ 32) }
    ensures no_fault { OnOk result (S.faults source.new ≡ S.faults source.old) }
    ensures reads { IsTakenWithin (most_script_bytes + 1) (S.left source.old) (S.left source.new) }
    ensures status { IfErr result (λ status. IsReadStatus status
        (S.faults source.old) (S.faults source.new) (S.left source.old)) }
{
    let script = match read_script(alloc, source, MAX_SCRIPT_BYTES) {
        Ok(script) => script,
        Err(ReadFault::Failed) => return Err(Status::SourceFault),
        Err(ReadFault::Memory) => return Err(Status::Memory),
    };
    match read_lines(alloc, &script) {
        Ok(commands) => Ok(commands),
        Err(ScriptFault::TooLong(limit)) => Err(Status::ScriptTooLong(limit)),
        Err(ScriptFault::Memory) => Err(Status::Memory),
    }
}
