//! Sets of numbers, and the lists that they come from and become.
ghost use Rattle.std.specs.Prelude.{IfOk, OnOk};
ghost use Rattle.wm_collections.specs.Sets.{AreAdded, AreMerged, IsListOf};

use std::alloc::{AllocError, Global};
use std::collections::BTreeSet;

/// The numbers that stand in one of two lists, each once, ascending. Memory that is refused is the
/// only error.
pub fn merged(alloc: Global, one: &[u64], other: &[u64]) -> Result<Vec<u64>, AllocError>
    ensures { IfOk result (λ numbers. AreMerged one.now other.now numbers.items) }
{
    let mut numbers = BTreeSet::new(alloc);
    add_each(&mut numbers, one)?;
    add_each(&mut numbers, other)?;
    listed(alloc, &numbers)
}

/// Adds numbers to a set. Where memory is refused, some may have been added.
pub fn add_each(numbers: &mut BTreeSet<u64>, others: &[u64]) -> Result<(), AllocError>
    ensures { OnOk result (AreAdded others.now numbers.old numbers.new) }
{
    for other in others {
        numbers.insert(*other)?;
    }
    Ok(())
}

/// The numbers of a set, ascending. Memory that is refused is the only error.
pub fn listed(alloc: Global, numbers: &BTreeSet<u64>) -> Result<Vec<u64>, AllocError>
    ensures { IfOk result (λ list. IsListOf numbers.now list.items) }
{
    let mut list = Vec::new(alloc);
    for number in numbers {
        list.push(*number)?;
    }
    Ok(list)
}
