//! The stock workers as one type, and those that a program has.
ghost use Rattle.std.specs.Prelude.{◌≡◌, ◌<◌, ◌/◌, slice_get, Some};
ghost use Rattle.wm_stock.specs.AnyStocks.{stock_name, stocks};

use crate::count::Count;
use crate::echo::Echo;
use crate::fail_until::FailUntil;
use crate::retry_until::RetryUntil;
use crate::sum::Sum;
use crate::wait::Wait;
use std::alloc::{AllocError, Global};
use wm_worker::{Entry, Kind, Signal, Task, Told, Worker};

/// How many stock workers a program has: four of each kind.
pub const STOCK_WORKERS: u32 = 24;

/// A stock worker of any kind.
#[derive(Clone, Copy, Debug, PartialEq, Eq)]
pub enum AnyStock {
    Echo,
    Sum,
    FailUntil,
    RetryUntil,
    Count,
    Wait,
}

impl AnyStock {
    /// The stock worker of this number, from 0: four of each kind, in the order of the kinds.
    pub fn numbered(number: u32) -> AnyStock
        requires { number < 24 }
        ensures { slice_get stocks (number / 4) ≡ Some result }
    {
        let stocks = [
            AnyStock::Echo,
            AnyStock::Sum,
            AnyStock::FailUntil,
            AnyStock::RetryUntil,
            AnyStock::Count,
            AnyStock::Wait,
        ];
        stocks[(number / 4) as usize]
    }

    /// The name of its kind.
    pub fn name(self) -> &'static str
        ensures { result.now ≡ stock_name self }
    {
        match self {
            AnyStock::Echo => "Echo",
            AnyStock::Sum => "Sum",
            AnyStock::FailUntil => "FailUntil",
            AnyStock::RetryUntil => "RetryUntil",
            AnyStock::Count => "Count",
            AnyStock::Wait => "Wait",
        }
    }
}

impl Worker for AnyStock {
    ghost use Rattle.std.specs.Prelude.{None};
    ghost use Rattle.wm_stock.specs.AnyStocks.{stock_kind};

    ghost kind_of = { stock_kind };

    ghost diary_of = { λ _. None };

    fn kind(&self) -> Kind {
        match self {
            AnyStock::Echo => Kind::Echo,
            AnyStock::Sum => Kind::Sum,
            AnyStock::FailUntil => Kind::FailUntil,
            AnyStock::RetryUntil => Kind::RetryUntil,
            AnyStock::Count => Kind::Count,
            AnyStock::Wait => Kind::Wait,
        }
    }

    fn diary(&self) -> Option<&[Entry]> {
        None
    }

    /// There is nothing to make ready.
    fn begin(&mut self, _alloc: Global, _task: &Task) -> Result<(), AllocError> {
        Ok(())
    }

    /// Answers as the worker of its kind.
    fn turn(
        &mut self,
        alloc: Global,
        task: &Task,
        k: u32,
        signal: &Signal,
    ) -> Result<Told, AllocError> {
        match self {
            AnyStock::Echo => Echo::new().turn(alloc, task, k, signal),
            AnyStock::Sum => Sum::new().turn(alloc, task, k, signal),
            AnyStock::FailUntil => FailUntil::new().turn(alloc, task, k, signal),
            AnyStock::RetryUntil => RetryUntil::new().turn(alloc, task, k, signal),
            AnyStock::Count => Count::new().turn(alloc, task, k, signal),
            AnyStock::Wait => Wait::new().turn(alloc, task, k, signal),
        }
    }
}
