//! The works that have one of several ids, unique names or tags, found by the index of a view.
ghost use Rattle.std.specs.List.{list_any};
ghost use Rattle.std.specs.Prelude.{◌≡◌, filter, Bool, IfOk, OnOk};
ghost use Rattle.std.specs.Str.{bytes_eq};
ghost use Rattle.wm_machine.specs.Group.{is_name, numbers_in};
ghost use Rattle.wm_machine.specs.Queried.{has_tag};
ghost use Rattle.wm_machine.specs.declared.record.Record.{Record};
ghost use Rattle.wm_request.specs.Batches.{has_id};
ghost use Rattle.wm_collections.specs.Sets.{AreAdded};
ghost use Rattle.wm_settings.specs.WorkSets.{HasNumbersOf};

use std::alloc::{AllocError, Global};
use std::collections::BTreeSet;
use uuid::Uuid;
use wm_collections::{Items, Text, add_each, listed};
use wm_steps::View;

/// The numbers of the works that have one of these ids, ascending. Memory that is refused is the only
/// error.
pub fn numbers_with_ids(alloc: Global, view: &View, ids: &[Uuid]) -> Result<Items<u64>, AllocError>
    ensures { IfOk result (λ numbers. numbers
        ≡ numbers_in (filter (λ work. has_id ids.now work.request.id) view.entry.now.works)) }
{
    let mut numbers = BTreeSet::new(alloc);
    for id in ids {
        add_with_id(&mut numbers, view, *id)?;
    }
    numbers_of(alloc, view, &numbers)
}

/// The numbers of the works that have one of these unique names, ascending. Memory that is refused is
/// the only error.
pub fn numbers_with_names(
    alloc: Global,
    view: &View,
    names: &[Text],
) -> Result<Items<u64>, AllocError>
    ensures { IfOk result (λ numbers. numbers
        ≡ numbers_in (filter (λ work. list_any (λ name. is_name name work.name) names.now) view.entry.now.works)) }
{
    let mut numbers = BTreeSet::new(alloc);
    for name in names {
        add_each(&mut numbers, view.members(name))?;
    }
    numbers_of(alloc, view, &numbers)
}

/// The numbers of the works that have one of these tags, ascending. Memory that is refused is the only
/// error.
pub fn numbers_with_tags(
    alloc: Global,
    view: &View,
    tags: &[Text],
) -> Result<Items<u64>, AllocError>
    ensures { IfOk result (λ numbers. numbers
        ≡ numbers_in (filter (λ work. list_any (has_tag work.request.tags) tags.now) view.entry.now.works)) }
{
    let mut numbers = BTreeSet::new(alloc);
    for tag in tags {
        add_each(&mut numbers, view.tagged(tag))?;
    }
    numbers_of(alloc, view, &numbers)
}

/// Adds the number of the work of an id to a set, where there is one.
fn add_with_id(numbers: &mut BTreeSet<u64>, view: &View, id: Uuid) -> Result<(), AllocError>
    ensures { OnOk result (AreAdded
        (numbers_in (filter (λ work. bytes_eq id work.request.id) view.entry.now.works)) numbers.old numbers.new) }
{
    // what the type of a view keeps is known where a field of it is read
    let _reached = &view.state;
    let Some(number) = view.number_of(id) else {
        return Ok(());
    };
    numbers.insert(number)?;
    Ok(())
}

/// The numbers of a set, ascending: those of the works that pass a test, where the set has these.
fn numbers_of(alloc: Global, view: &View, numbers: &BTreeSet<u64>) -> Result<Items<u64>, AllocError>
    ensures { IfOk result (λ list. (test : Record → Bool)
        → HasNumbersOf (filter test view.entry.now.works) numbers.entry.now
        → list ≡ numbers_in (filter test view.entry.now.works)) }
{
    let _reached = &view.state;
    let list = listed(alloc, numbers)?;
    Ok(Items::from_vec(list))
}
