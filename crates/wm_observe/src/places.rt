//! What a change puts in the places of records, found by their numbers.
ghost use Rattle.std.specs.Option.{option_copied};
ghost use Rattle.std.specs.Prelude.{◌≡◌, IfOk};
ghost use Rattle.wm_observe.specs.Put.{ArePlaces, ArePlacesOf, IsSetOf};
ghost use Rattle.wm_changes.specs.Touched.{put_in, then_of};

use std::alloc::{AllocError, Global};
use std::collections::{BTreeMap, BTreeSet};
use wm_changes::{Replacement, StepChange};
use wm_collections::{add_each, at};
use wm_machine::Record;

/// Which records a change removes, and where in its lists those are that it puts in the places of
/// others, by their numbers.
#[derive(Drop)]
pub struct Places {
    pub removed: BTreeSet<u64>,
    pub told: BTreeMap<u64, usize>,
    pub replaced: BTreeMap<u64, usize>,
}

/// The places of a change. Memory that is refused is the only error.
pub fn places_of(alloc: Global, change: &StepChange) -> Result<Places, AllocError>
    ensures { IfOk result (ArePlacesOf change.entry.now) }
{
    let removed = set_of(alloc, change.removed.as_slice())?;
    let told = places_in(alloc, change.told.as_slice())?;
    let replaced = places_in(alloc, change.replaced.as_slice())?;
    Ok(Places {
        removed,
        told,
        replaced,
    })
}

/// The record after the change; none where it is removed.
pub fn then_of<'a>(change: &'a StepChange, places: &Places, work: &'a Record) -> Option<&'a Record>
    requires { ArePlacesOf change.now places.now }
    ensures { option_copied result ≡ then_of change.now work.now }
{
    if places.removed.contains(&work.seq) {
        return None;
    }
    let told = put_in(change.told.as_slice(), &places.told, work);
    Some(put_in(change.replaced.as_slice(), &places.replaced, told))
}

/// The last of these that is put in the place of a record, and the record where none is.
fn put_in<'a>(
    replaced: &'a [Replacement],
    places: &BTreeMap<u64, usize>,
    work: &'a Record,
) -> &'a Record
    requires { ArePlaces replaced.now places.now }
    ensures { result.now ≡ put_in replaced.now work.now }
{
    match places.get(&work.seq) {
        Some(index) => &at(replaced, *index).work,
        None => work,
    }
}

/// Where in a list the last record of each number is.
fn places_in(alloc: Global, replaced: &[Replacement]) -> Result<BTreeMap<u64, usize>, AllocError>
    ensures { IfOk result (ArePlaces replaced.entry.now) }
{
    let mut places = BTreeMap::new(alloc);
    for (index, one) in replaced.iter().enumerate() {
        places.insert(one.work.seq, index)?;
    }
    Ok(places)
}

/// These numbers as a set.
fn set_of(alloc: Global, numbers: &[u64]) -> Result<BTreeSet<u64>, AllocError>
    ensures { IfOk result (IsSetOf numbers.entry.now) }
{
    let mut set = BTreeSet::new(alloc);
    add_each(&mut set, numbers)?;
    Ok(set)
}
