//! The trait of a sink, and what a write answers.
ghost use Rattle.std.specs.Prelude.{ℕ, ◌<◌, List, length, Option};

/// What a write answers.
#[derive(Clone, Copy, Debug, PartialEq, Eq)]
pub enum Put {
    /// So many bytes, at least one, were taken from the front of the piece.
    Took(usize),
    /// The write failed. What was given is as before.
    Failed,
    /// Memory was refused. What was given is as before.
    Memory,
}

/// Where bytes go.
pub trait Sink {
    ghost use Rattle.wm_io.specs.Sink.{FitsPiece, Writes, PutCause};

    /// The bytes that it was given, where it tells them.
    ghost given: { Self → Option (List ℕ) };

    /// How many faults it has met.
    ghost faults: { Self → ℕ };

    /// Gives it bytes from the front of a piece, which isn't empty.
    fn write(&mut self, piece: &[u8]) -> Put
        requires { 0 < length piece.now }
        ensures count { FitsPiece result (length piece.now) }
        ensures bytes { Writes result (given self.old) (given self.new) piece.now }
        ensures cause { PutCause result (faults self.old) (faults self.new) };
}
