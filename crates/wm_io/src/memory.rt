//! A source and a sink in memory, which fail where they are told to.
ghost use Rattle.std.specs.Prelude.{◌≡◌, ℕ, ◌+◌, ◌-◌, ◌^◌, ◌<◌, ◌≤◌, ◌↔◌, List, [], length, take, drop, min, Contains, IsTrue, Some};
ghost use Rattle.std.specs.Bool.{OnTrue, OnFalse};
ghost use Rattle.wm_io.specs.Memory.{one_more};

use crate::sink::{Put, Sink};
use crate::source::{Got, Source};
use std::marker::Model;
use wm_faults::FaultCount;

/// The calls of an object in memory: which of them fail, and how many calls and faults there were.
#[derive(Drop)]
struct Calls {
    /// The numbers of the calls that fail, counted from 1.
    failing: Vec<u32>,
    /// The calls so far. It stands still at 2^64 - 1.
    count: u64,
    faults: FaultCount,
}

impl Calls {
    fn new(failing: Vec<u32>) -> Calls
        ensures failing { result.failing ≡ failing }
        ensures count { result.count ≡ 0 }
        ensures faults { result.faults ≡ 0 }
    {
        Calls {
            failing,
            count: 0,
            faults: FaultCount::new(),
        }
    }

    /// Counts one call more, and tells whether it fails. Where it does, that is a fault.
    fn next_fails(&mut self) -> bool
        ensures fails { IsTrue result ↔ Contains self.old.failing.items (self.old.count + 1) }
        ensures failing { self.new.failing ≡ self.old.failing }
        ensures count { self.new.count ≡ one_more self.old.count }
        ensures raised { OnTrue result (self.new.faults ≡ one_more self.old.faults) }
        ensures kept { OnFalse result (self.new.faults ≡ self.old.faults) }
    {
        self.count = self.count.saturating_add(1);
        let number = self.count;
        let fails = self.failing.iter().any(|n| u64::from(*n) == number);
        if fails {
            self.faults.raise();
        }
        fails
    }
}

/// Copies the first `count` bytes of `from` to the front of `into`.
fn copy_front(from: &[u8], into: &mut [u8], count: usize)
    requires from_holds { count ≤ length from.now }
    requires into_holds { count ≤ length into.old }
    ensures front { take count into.new ≡ take count from.now }
    ensures tail { drop count into.new ≡ drop count into.old }
{
    into[..count].copy_from_slice(&from[..count]);
}

/// A source that gives bytes out of memory in small pieces, and fails where it is told to. A
/// contract sees the bytes left, the cut, the numbers of the calls that fail, and how many calls
/// and faults there were.
#[derive(Drop)]
pub struct MemorySource {
    bytes: Vec<u8>,
    /// How many of the bytes were given.
    given: usize,
    cut: usize,
    calls: Calls,
}

impl Model for MemorySource {
    ghost use Rattle.std.specs.Prelude.{◌<◌, ◌≤◌, drop, vec_len};
    ghost use Rattle.wm_io.specs.Memory.{SourceState};

    ghost Value = { SourceState };

    ghost view = { λ s. record {
      left = drop s.given s.bytes.items;
      cut = s.cut;
      failing = s.calls.failing.items;
      calls = s.calls.count;
      faults = s.calls.faults;
    } };

    ghost invariant = { λ s. (0 < s.cut) × (s.given ≤ vec_len s.bytes) };
}

impl MemorySource {
    /// A source of `bytes`, which gives at most `cut` of them a call and fails at the calls whose
    /// numbers, counted from 1, stand in `failing`.
    pub fn new(bytes: Vec<u8>, cut: usize, failing: Vec<u32>) -> MemorySource
        requires { 0 < cut }
        ensures left { result.left ≡ bytes.items }
        ensures cut { result.cut ≡ cut }
        ensures failing { result.failing ≡ failing.items }
        ensures calls { result.calls ≡ 0 }
        ensures faults { result.faults ≡ 0 }
    {
        MemorySource {
            bytes,
            given: 0,
            cut,
            calls: Calls::new(failing),
        }
    }
}

impl Source for MemorySource {
    ghost use Rattle.wm_io.specs.Source.{FitsSlice, Reads, GotCause};
    ghost use Rattle.wm_io.specs.Memory.{GivesMost, KeepsTail};

    ghost left = { λ s. Some s.left };

    ghost faults = { λ s. s.faults };

    /// Fails exactly at the calls that were listed, ends exactly where nothing is left, and gives
    /// otherwise as many bytes as are left, the slice holds and the cut allows.
    fn read(&mut self, into: &mut [u8]) -> Got
        requires { 0 < length into.old }
        ensures count { FitsSlice result (length into.new) }
        ensures bytes { Reads result (Some self.old.left) (Some self.new.left) into.new }
        ensures cause { GotCause result self.old.faults self.new.faults }

        ensures failed { (result ≡ Got.Failed) ↔ Contains self.old.failing (self.old.calls + 1) }
        ensures raised { result ≡ Got.Failed → self.new.faults ≡ one_more self.old.faults }
        ensures end { (result ≡ Got.End)
            ↔ (self.old.left ≡ []) × ¬ Contains self.old.failing (self.old.calls + 1) }
        ensures amount { GivesMost result self.old (length into.old) }
        ensures tail { KeepsTail result into.old into.new }

        ensures calls { self.new.calls ≡ one_more self.old.calls }
        ensures cut { self.new.cut ≡ self.old.cut }
        ensures failing { self.new.failing ≡ self.old.failing }
    {
        if self.calls.next_fails() {
            return Got::Failed;
        }
        let rest = &self.bytes[self.given..];
        if rest.is_empty() {
            return Got::End;
        }
        let count = rest.len().min(into.len()).min(self.cut);
        copy_front(rest, into, count);
        self.given += count;
        Got::Some(count)
    }
}

/// A sink that takes bytes into memory in small pieces, and fails where it is told to. A contract
/// sees the bytes given, the cut, the numbers of the calls that fail, and how many calls and faults
/// there were.
#[derive(Drop)]
pub struct MemorySink {
    bytes: Vec<u8>,
    cut: usize,
    calls: Calls,
}

impl Model for MemorySink {
    ghost use Rattle.std.specs.Prelude.{◌<◌};
    ghost use Rattle.wm_io.specs.Memory.{SinkState};

    ghost Value = { SinkState };

    ghost view = { λ s. record {
      given = s.bytes.items;
      cut = s.cut;
      failing = s.calls.failing.items;
      calls = s.calls.count;
      faults = s.calls.faults;
    } };

    ghost invariant = { λ s. 0 < s.cut };
}

impl MemorySink {
    /// A sink that was given nothing so far, takes at most `cut` bytes a call and fails at the
    /// calls whose numbers, counted from 1, stand in `failing`.
    pub fn new(cut: usize, failing: Vec<u32>) -> MemorySink
        requires { 0 < cut }
        ensures given { result.given ≡ [] }
        ensures cut { result.cut ≡ cut }
        ensures failing { result.failing ≡ failing.items }
        ensures calls { result.calls ≡ 0 }
        ensures faults { result.faults ≡ 0 }
    {
        MemorySink {
            bytes: Vec::new(*failing.allocator()),
            cut,
            calls: Calls::new(failing),
        }
    }

    /// The bytes given so far.
    pub fn bytes(&self) -> &[u8]
        ensures { result.now ≡ self.now.given }
    {
        self.bytes.as_slice()
    }
}

impl Sink for MemorySink {
    ghost use Rattle.wm_io.specs.Sink.{FitsPiece, Writes, PutCause};
    ghost use Rattle.wm_io.specs.Memory.{TakesMost};

    ghost given = { λ s. Some s.given };

    ghost faults = { λ s. s.faults };

    /// Fails exactly at the calls that were listed, and takes otherwise as many bytes as the piece
    /// has and the cut allows, unless memory is refused.
    fn write(&mut self, piece: &[u8]) -> Put
        requires { 0 < length piece.now }
        ensures count { FitsPiece result (length piece.now) }
        ensures bytes { Writes result (Some self.old.given) (Some self.new.given) piece.now }
        ensures cause { PutCause result self.old.faults self.new.faults }

        ensures failed { (result ≡ Put.Failed) ↔ Contains self.old.failing (self.old.calls + 1) }
        ensures raised { result ≡ Put.Failed → self.new.faults ≡ one_more self.old.faults }
        ensures amount { TakesMost result self.old (length piece.now) }

        ensures calls { self.new.calls ≡ one_more self.old.calls }
        ensures cut { self.new.cut ≡ self.old.cut }
        ensures failing { self.new.failing ≡ self.old.failing }
    {
        if self.calls.next_fails() {
            return Put::Failed;
        }
        let count = piece.len().min(self.cut);
        match self.bytes.extend_from_slice(&piece[..count]) {
            Ok(()) => Put::Took(count),
            Err(_) => Put::Memory,
        }
    }
}
