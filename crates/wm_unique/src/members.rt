//! Works by their numbers: the members of a group, looked up among the records in ascending number.
ghost use Rattle.std.specs.BTreeSet.{contains};
ghost use Rattle.std.specs.List.{list_any};
ghost use Rattle.std.specs.Ordering.{nat_cmp};
ghost use Rattle.std.specs.Prelude.{◌≡◌, ◌||◌, ℕ, filter, find, option_map, IfOk, OnOk};
ghost use Rattle.wm_collections.specs.Lists.{AllLater, is_among};
ghost use Rattle.wm_machine.specs.Group.{leaves_of, numbers_in};
ghost use Rattle.wm_machine.specs.Plan.{is_lost, is_unfinished};
ghost use Rattle.wm_machine.specs.Valid.{IsBefore};
ghost use Rattle.wm_unique.specs.Plans.{AreNumbersOf, ArePriorTo, grouped, numbered_passes};

use std::alloc::{AllocError, Global};
use std::collections::BTreeSet;
use wm_collections::{Items, add_each};
use wm_machine::{How, Phase, Record, work_numbered};

/// Whether work in this phase has failed or was cancelled.
fn is_lost(phase: Phase) -> bool
    ensures { result ≡ is_lost phase }
{
    matches!(
        phase,
        Phase::Done(How::Failed) | Phase::Done(How::Cancelled)
    )
}

/// Whether the work of this number isn't finished.
fn is_unfinished(works: &[Record], number: u64) -> bool
    requires { AllLater IsBefore works.now }
    ensures { result ≡ numbered_passes is_unfinished works.now number }
{
    match work_numbered(works, number) {
        Some(work) => work.phase.is_open(),
        None => false,
    }
}

/// Whether the work of this number has failed or was cancelled.
fn is_lost_work(works: &[Record], number: u64) -> bool
    requires { AllLater IsBefore works.now }
    ensures { result ≡ numbered_passes (λ work. is_lost work.phase) works.now number }
{
    match work_numbered(works, number) {
        Some(work) => is_lost(work.phase),
        None => false,
    }
}

/// Whether one of the works of these numbers isn't finished.
fn any_number_unfinished(works: &[Record], numbers: &[u64]) -> bool
    requires { AllLater IsBefore works.now }
    ensures { result ≡ list_any (numbered_passes is_unfinished works.now) numbers.now }
{
    numbers.iter().any(|number| is_unfinished(works, *number))
}

/// Whether one of the works of these numbers has failed or was cancelled.
fn any_number_lost(works: &[Record], numbers: &[u64]) -> bool
    requires { AllLater IsBefore works.now }
    ensures { result ≡ list_any (numbered_passes (λ work. is_lost work.phase) works.now) numbers.now }
{
    numbers.iter().any(|number| is_lost_work(works, *number))
}

/// The first of these numbers whose work isn't finished.
fn first_number_unfinished(works: &[Record], numbers: &[u64]) -> Option<u64>
    requires { AllLater IsBefore works.now }
    ensures { result ≡ find (numbered_passes is_unfinished works.now) numbers.now }
{
    numbers
        .iter()
        .copied()
        .find(|number| is_unfinished(works, *number))
}

/// Whether a member isn't finished.
pub fn any_unfinished(works: &[Record], group: &[u64]) -> bool
    requires in_order { AllLater IsBefore works.now }
    requires group { AreNumbersOf works.now group.now }
    ensures { result ≡ list_any is_unfinished (grouped works.now group.now) }
{
    any_number_unfinished(works, group)
}

/// Whether a member has failed or was cancelled.
pub fn any_lost(works: &[Record], group: &[u64]) -> bool
    requires in_order { AllLater IsBefore works.now }
    requires group { AreNumbersOf works.now group.now }
    ensures { result ≡ list_any (λ work. is_lost work.phase) (grouped works.now group.now) }
{
    any_number_lost(works, group)
}

/// The number of the first member that isn't finished.
pub fn first_unfinished(works: &[Record], group: &[u64]) -> Option<u64>
    requires in_order { AllLater IsBefore works.now }
    requires group { AreNumbersOf works.now group.now }
    ensures { result ≡ option_map (λ work. work.seq) (find is_unfinished (grouped works.now group.now)) }
{
    first_number_unfinished(works, group)
}

/// The numbers of those works of a group that aren't finished. `group` has the numbers of some of
/// the records, ascending. Memory that is refused is the only error.
pub fn unfinished(alloc: Global, works: &[Record], group: &[u64]) -> Result<Items<u64>, AllocError>
    requires in_order { AllLater IsBefore works.now }
    requires group { AreNumbersOf works.now group.now }
    ensures { IfOk result (λ numbers. numbers ≡ numbers_in (filter is_unfinished (grouped works.now group.now))) }
{
    let mut numbers = Items::new(alloc);
    for number in group {
        if is_unfinished(works, *number) {
            numbers.push(*number)?;
        }
    }
    Ok(numbers)
}

/// Adds the prerequisites of the work of this number to a set.
fn add_prior(prior: &mut BTreeSet<u64>, works: &[Record], number: u64) -> Result<(), AllocError>
    requires { AllLater IsBefore works.now }
    ensures { OnOk result ((other : ℕ) → contains nat_cmp prior.new other
        ≡ (contains nat_cmp prior.old other || numbered_passes (λ work. is_among work.prior other) works.now number)) }
{
    match work_numbered(works, number) {
        Some(work) => add_each(prior, work.prior.as_slice()),
        None => Ok(()),
    }
}

/// The numbers of the prerequisites of the members.
fn prior_of(alloc: Global, works: &[Record], group: &[u64]) -> Result<BTreeSet<u64>, AllocError>
    requires in_order { AllLater IsBefore works.now }
    requires group { AreNumbersOf works.now group.now }
    ensures { IfOk result (ArePriorTo (grouped works.now group.now)) }
{
    let mut prior = BTreeSet::new(alloc);
    for number in group {
        add_prior(&mut prior, works, *number)?;
    }
    Ok(prior)
}

/// The numbers of the leaves, the members that no member comes after. Memory that is refused is the
/// only error.
pub fn leaves(alloc: Global, works: &[Record], group: &[u64]) -> Result<Items<u64>, AllocError>
    requires in_order { AllLater IsBefore works.now }
    requires group { AreNumbersOf works.now group.now }
    ensures { IfOk result (λ numbers. numbers ≡ numbers_in (leaves_of (grouped works.now group.now))) }
{
    let prior = prior_of(alloc, works, group)?;
    let mut numbers = Items::new(alloc);
    for number in group {
        if !prior.contains(number) {
            numbers.push(*number)?;
        }
    }
    Ok(numbers)
}

/// The numbers of all members.
pub fn all(alloc: Global, group: &[u64]) -> Result<Items<u64>, AllocError>
    ensures { IfOk result (λ numbers. numbers ≡ group.now) }
{
    let mut numbers = Items::new(alloc);
    for number in group {
        numbers.push(*number)?;
    }
    Ok(numbers)
}
