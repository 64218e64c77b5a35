//! A sink in memory that never fails.
ghost use Rattle.std.specs.Prelude.{◌≡◌, []};

use std::alloc::Global;
use std::marker::Model;
use wm_io::{Put, Sink};

/// A sink that takes its bytes into memory and never fails. A contract sees it as the list of the bytes
/// that it was given, and it always tells them.
#[derive(Drop)]
pub struct SureSink {
    bytes: Vec<u8>,
}

impl Model for SureSink {
    ghost use Rattle.std.specs.Prelude.{ℕ, List};

    ghost Value = { List ℕ };

    ghost view = { λ sink. sink.bytes.items };
}

impl SureSink {
    /// A sink that was given nothing so far.
    pub fn new(alloc: Global) -> SureSink
        ensures { result ≡ [] }
    {
        SureSink {
            bytes: Vec::new(alloc),
        }
    }

    /// The bytes given so far.
    pub fn bytes(&self) -> &[u8]
        ensures { result.now ≡ self.now }
    {
        self.bytes.as_slice()
    }
}

impl Sink for SureSink {
    ghost use Rattle.wm_io.specs.Sink.{FitsPiece, PutCause, Writes};
    ghost use Rattle.wm_audit_program.specs.Sure.{faults_of, given_of};
    ghost use Rattle.std.specs.Prelude.{◌<◌, length};

    ghost given = { given_of };

    ghost faults = { faults_of };

    /// Takes the whole piece, unless memory is refused.
    fn write(&mut self, piece: &[u8]) -> Put {
        match self.bytes.extend_from_slice(piece) {
            Ok(()) => Put::Took(piece.len()),
            Err(_) => Put::Memory,
        }
    }
}
