//! Writing a text to a sink, in as many pieces as it takes.
ghost use Rattle.std.specs.Prelude.{◌≡◌, ◌≤◌, length, take, OnOk};
ghost use Rattle.wm_io.specs.Writing.{IsAppended, WriteCause};

use crate::sink::{Put, Sink};

/// Why a text wasn't written whole.
#[derive(Clone, Copy, Debug, PartialEq, Eq)]
pub enum WriteFault {
    /// The sink failed.
    Failed,
    /// Memory was refused.
    Memory,
}

/// Gives a text to a sink, in as many pieces as it takes, and answers how many bytes it took, from
/// the front, and whether that is all.
pub fn write_front<W: Sink>(sink: &mut W, text: &[u8]) -> (usize, Result<(), WriteFault>)
    ensures within { result.0 ≤ length text.now }
    ensures given { IsAppended (W.given sink.old) (W.given sink.new) (take result.0 text.now) }
    ensures all { OnOk result.1 (result.0 ≡ length text.now) }
    ensures cause { WriteCause result.1 (W.faults sink.old) (W.faults sink.new) }
{
    let mut taken = 0;
    'pieces: while taken < text.len() {
        match sink.write(&text[taken..]) {
            Put::Took(count) => taken += count,
            Put::Failed => return (taken, Err(WriteFault::Failed)),
            Put::Memory => return (taken, Err(WriteFault::Memory)),
        }
    }
    (taken, Ok(()))
}
