//! Counts of faults, by which an error has its cause.
//!
//! A source, a sink and a keeper each keep a count of the faults that they met. A call on one
//! answers that it failed only where its count rose, so that code which is generic over them
//! can't give up by itself and blame the outside.
#![tactic(auto)]

ghost use Rattle.std.specs.Prelude.{◌≡◌, ℕ, ◌+◌, ◌-◌, ◌^◌, ◌≤◌, min};

use std::marker::Model;

/// How many faults an object has met. It never falls, and stands still at 2^64 - 1. A contract
/// sees it as a number.
#[derive(Clone, Copy)]
pub struct FaultCount {
    count: u64,
}

impl Model for FaultCount {
    ghost Value = { ℕ };

    ghost view = { λ f. f.count };

    ghost inverse = { λ n. record { count = n } };
}

impl FaultCount {
    ghost use Rattle.wm_faults.specs.Faults.{Failed};

    /// No fault so far.
    pub fn new() -> FaultCount
        ensures { result ≡ 0 }
    {
        FaultCount { count: 0 }
    }

    /// Counts one fault more.
    pub fn raise(&mut self)
        ensures count { self.new ≡ min (self.old + 1) (2 ^ 64 - 1) }
        ensures later { self.old ≤ self.new }
        ensures failed { Failed self.old self.new }
    {
        self.count = self.count.saturating_add(1);
    }
}
