//! The trait of a source, and what a read answers.
ghost use Rattle.std.specs.Prelude.{ℕ, ◌<◌, List, length, Option};

/// What a read answers.
#[derive(Clone, Copy, Debug, PartialEq, Eq)]
pub enum Got {
    /// So many bytes, at least one, stand at the front of the slice.
    Some(usize),
    /// Nothing is left.
    End,
    /// The read failed. What is left is as before.
    Failed,
}

/// Where bytes come from.
pub trait Source {
    ghost use Rattle.wm_io.specs.Source.{FitsSlice, Reads, GotCause};

    /// The bytes that are left, where it tells them.
    ghost left: { Self → Option (List ℕ) };

    /// How many faults it has met.
    ghost faults: { Self → ℕ };

    /// Reads bytes into the front of a slice, which isn't empty.
    fn read(&mut self, into: &mut [u8]) -> Got
        requires { 0 < length into.old }
        ensures count { FitsSlice result (length into.new) }
        ensures bytes { Reads result (left self.old) (left self.new) into.new }
        ensures cause { GotCause result (faults self.old) (faults self.new) };
}
