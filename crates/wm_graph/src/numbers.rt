//! Numbers that ascend: whether one is among them, and those from one on.
ghost use Rattle.std.specs.Prelude.{◌≡◌, [], filter, nat_lt, not};
ghost use Rattle.wm_collections.specs.Lists.{is_among, NumbersAscend};
ghost use Rattle.wm_graph.specs.Numbers.{Ascend};

use std::alloc::Global;
use std::marker::Model;
use wm_collections::Items;

/// Numbers, as those of works, ascending. A contract sees them as their list.
#[derive(Drop)]
pub struct Numbers {
    numbers: Items<u64>,
}

impl Model for Numbers {
    ghost use Rattle.std.specs.Prelude.{ℕ, List};
    ghost use Rattle.wm_graph.specs.Numbers.{Ascend};

    ghost Value = { List ℕ };

    ghost view = { λ n. n.numbers };

    ghost invariant = { λ n. Ascend n.numbers };
}

impl Numbers {
    /// No number. It takes no memory.
    pub fn none(alloc: Global) -> Numbers
        ensures { result ≡ [] }
    {
        Numbers {
            numbers: Items::new(alloc),
        }
    }

    /// These numbers, which ascend. It takes no memory.
    pub fn of(numbers: Items<u64>) -> Numbers
        requires { Ascend numbers }
        ensures { result ≡ numbers }
    {
        Numbers { numbers }
    }

    /// Whether a number is one of these: it is found by halving.
    pub fn has(&self, number: u64) -> bool
        ensures { result ≡ is_among self.now number }
    {
        is_listed(self.numbers.as_slice(), number)
    }

    pub fn as_slice(&self) -> &[u64]
        ensures { result.now ≡ self.now }
    {
        self.numbers.as_slice()
    }

    /// The numbers as a list.
    pub fn into_items(self) -> Items<u64>
        ensures { result ≡ self }
    {
        self.numbers
    }
}

/// Whether a number is one of these, which ascend: it is found by halving.
pub fn is_listed(numbers: &[u64], number: u64) -> bool
    requires { Ascend numbers.now }
    ensures { result ≡ is_among numbers.now number }
{
    numbers.binary_search(&number).is_ok()
}

/// The numbers from this one on, of many that ascend: the first of them is found by halving.
pub fn numbers_from(numbers: &[u64], least: u64) -> &[u64]
    requires { NumbersAscend numbers.now }
    ensures { result.now ≡ filter (λ number. not (nat_lt number least)) numbers.now }
{
    let place = numbers.partition_point(|number| *number < least);
    &numbers[place..]
}
