//! A source and a sink over the readers and writers of std.
ghost use Rattle.std.specs.Prelude.{◌≡◌, ℕ, ◌<◌, ◌≤◌, length, None, IfOk};

use crate::sink::{Put, Sink};
use crate::source::{Got, Source};
use std::io::{ErrorKind, Read, Write};
use std::marker::Model;
use wm_faults::FaultCount;

/// How often a call is tried while signals interrupt it.
const TRIES: u32 = 100;

/// A source over one of std's readers. It tells nothing of what is left. A read that a signal
/// interrupts is tried again, as std's own `read_to_end` does, and is a fault at the hundredth
/// time. A contract sees the bytes that the reader will give, where std knows them, and how many
/// faults there were.
#[derive(Drop)]
pub struct StdSource<R: Read> {
    inner: R,
    faults: FaultCount,
}

impl<R: Read> Model for StdSource<R> {
    ghost use Rattle.std.specs.Prelude.{◌^◌, ◌<◌};
    ghost use Rattle.wm_io.specs.Standard.{StdState};

    ghost Value = { StdState };

    ghost view = { λ s. record { known = R.remaining s.inner; faults = s.faults } };

    // In a generic struct a proof isn't told that a count fits its type.
    ghost invariant = { λ s. s.faults < 2 ^ 64 };
}

impl<R: Read> StdSource<R> {
    /// A source of the bytes that `inner` gives.
    pub fn new(inner: R) -> StdSource<R>
        ensures known { result.known ≡ R.remaining inner }
        ensures faults { result.faults ≡ 0 }
    {
        StdSource {
            inner,
            faults: FaultCount::new(),
        }
    }
}

impl<R: Read> Source for StdSource<R> {
    ghost use Rattle.wm_io.specs.Source.{FitsSlice, Reads, GotCause};
    ghost use Rattle.wm_io.specs.Standard.{ReadsKnown};

    ghost left = { λ _. None };

    ghost faults = { λ s. s.faults };

    /// Reads once. An error is a fault.
    fn read(&mut self, into: &mut [u8]) -> Got
        requires { 0 < length into.old }
        ensures count { FitsSlice result (length into.new) }
        ensures bytes { Reads result None None into.new }
        ensures cause { GotCause result self.old.faults self.new.faults }
        ensures known { ReadsKnown result self.old.known self.new.known into.new }
    {
        'tries: for _ in 0..TRIES {
            match self.inner.read(into) {
                Ok(0) => return Got::End,
                Ok(count) => return Got::Some(count),
                Err(error) if error.kind() == ErrorKind::Interrupted => {}
                Err(_) => break,
            }
        }
        self.faults.raise();
        Got::Failed
    }
}

/// A sink over one of std's writers. It tells nothing of what was given. A write that a signal
/// interrupts is tried again, as std's own `write_all` does, and is a fault at the hundredth time;
/// a flush is not tried again. A contract sees the bytes that the writer holds, where std knows
/// them, and how many faults there were.
#[derive(Drop)]
pub struct StdSink<W: Write> {
    inner: W,
    faults: FaultCount,
}

impl<W: Write> Model for StdSink<W> {
    ghost use Rattle.std.specs.Prelude.{◌^◌, ◌<◌};
    ghost use Rattle.wm_io.specs.Standard.{StdState};

    ghost Value = { StdState };

    ghost view = { λ s. record { known = W.contents s.inner; faults = s.faults } };

    // In a generic struct a proof isn't told that a count fits its type.
    ghost invariant = { λ s. s.faults < 2 ^ 64 };
}

impl<W: Write> StdSink<W> {
    /// A sink that gives its bytes to `inner`.
    pub fn new(inner: W) -> StdSink<W>
        ensures known { result.known ≡ W.contents inner }
        ensures faults { result.faults ≡ 0 }
    {
        StdSink {
            inner,
            faults: FaultCount::new(),
        }
    }
}

impl<W: Write> Sink for StdSink<W> {
    ghost use Rattle.wm_io.specs.Sink.{FitsPiece, Writes, PutCause};
    ghost use Rattle.wm_io.specs.Standard.{WritesKnown};

    ghost given = { λ _. None };

    ghost faults = { λ s. s.faults };

    /// Writes once, and flushes. An error of either is a fault, and so is a write that takes
    /// nothing. Where the flush failed, the writer may hold some of the bytes.
    fn write(&mut self, piece: &[u8]) -> Put
        requires { 0 < length piece.now }
        ensures count { FitsPiece result (length piece.now) }
        ensures bytes { Writes result None None piece.now }
        ensures cause { PutCause result self.old.faults self.new.faults }
        ensures known { WritesKnown result self.old.known self.new.known piece.now }
    {
        'tries: for _ in 0..TRIES {
            match self.inner.write(piece) {
                Ok(0) => break,
                Ok(count) => {
                    if self.inner.flush().is_ok() {
                        return Put::Took(count);
                    }
                    break;
                }
                Err(error) if error.kind() == ErrorKind::Interrupted => {}
                Err(_) => break,
            }
        }
        self.faults.raise();
        Put::Failed
    }
}
