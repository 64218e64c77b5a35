//! What is still to be written to a sink.
ghost use Rattle.std.specs.Prelude.{◌≡◌, ◌++◌, ℕ, List, [], false, IfOk, OnOk, OnErr};
ghost use Rattle.wm_io.specs.Pending.{nothing, still_pending, IsGivenBut};
ghost use Rattle.wm_io.specs.Writing.{WriteCause};

use crate::sink::Sink;
use crate::writing::{WriteFault, write_front};
use std::alloc::{AllocError, Global};
use std::marker::Model;

/// How many bytes there is room for from the start.
const PENDING_BYTES: usize = 4096;

/// What has a text that is made when it is asked for.
pub trait HasText {
    /// The text's bytes.
    ghost text: { Self → List ℕ };

    /// Makes the text, unless memory is refused.
    fn text(&self, alloc: Global) -> Result<Vec<u8>, AllocError>
        ensures { IfOk result (λ made. made.items ≡ text self.now) };
}

/// What is still to be written: bytes and, where memory was refused for the last text, that text
/// behind them.
#[derive(Drop)]
pub struct Pending {
    bytes: Vec<u8>,
    untold: bool,
}

impl Model for Pending {
    ghost use Rattle.wm_io.specs.Pending.{PendingState};

    ghost Value = { PendingState };

    ghost view = { λ p. record { bytes = p.bytes.items; untold = p.untold } };
}

impl Pending {
    /// Nothing.
    pub fn new(alloc: Global) -> Result<Pending, AllocError>
        ensures { IfOk result (λ pending. pending ≡ nothing) }
    {
        Ok(Pending {
            bytes: Vec::with_capacity(alloc, PENDING_BYTES)?,
            untold: false,
        })
    }

    /// Puts a text behind what is pending, and writes that as far as the sink takes it. Where memory
    /// is refused for the text, it is still to be made.
    pub fn tell<T: HasText, W: Sink>(
        &mut self,
        alloc: Global,
        last: &T,
        sink: &mut W,
    ) -> Result<(), WriteFault>
        requires { self.old.untold ≡ false }
        ensures told { IsGivenBut (W.given sink.old) (W.given sink.new)
            (self.old.bytes ++ T.text last.now) (still_pending self.new (T.text last.now)) }
        ensures all { OnOk result (self.new ≡ nothing) }
        ensures cause { WriteCause result (W.faults sink.old) (W.faults sink.new) }
    {
        match self.add(alloc, last) {
            Ok(()) => self.write(sink),
            Err(_) => {
                self.untold = true;
                Err(WriteFault::Memory)
            }
        }
    }

    /// Writes what is pending in the end, as far as the sink takes it; where the last text is still to
    /// be made, that is tried once more.
    pub fn finish<T: HasText, W: Sink>(
        &mut self,
        alloc: Global,
        last: &T,
        sink: &mut W,
    ) -> Result<(), WriteFault>
        ensures told { IsGivenBut (W.given sink.old) (W.given sink.new)
            (still_pending self.old (T.text last.now)) (still_pending self.new (T.text last.now)) }
        ensures all { OnOk result (still_pending self.new (T.text last.now) ≡ []) }
        ensures cause { WriteCause result (W.faults sink.old) (W.faults sink.new) }
    {
        if self.untold {
            self.untold = false;
            self.tell(alloc, last, sink)
        } else {
            self.write(sink)
        }
    }

    /// Puts a text behind the bytes.
    fn add<T: HasText>(&mut self, alloc: Global, last: &T) -> Result<(), AllocError>
        ensures ok { OnOk result (self.new ≡ record self.old { bytes = self.old.bytes ++ T.text last.now }) }
        ensures err { OnErr result (self.new ≡ self.old) }
    {
        let text = last.text(alloc)?;
        self.bytes.extend_from_slice(&text)
    }

    /// Writes the bytes, as far as the sink takes them; the rest stays.
    fn write<W: Sink>(&mut self, sink: &mut W) -> Result<(), WriteFault>
        ensures untold { self.new.untold ≡ self.old.untold }
        ensures all { OnOk result (self.new.bytes ≡ []) }
        ensures kept { IsGivenBut (W.given sink.old) (W.given sink.new) self.old.bytes self.new.bytes }
        ensures cause { WriteCause result (W.faults sink.old) (W.faults sink.new) }
    {
        let (taken, result) = write_front(sink, &self.bytes);
        self.bytes.drain(..taken);
        result
    }
}
