//! How the index of the records follows a step: what comes is put in before the commit, since it
//! takes memory, and what goes is taken out after it. Where the commit fails, what has come is taken
//! out again.
ghost use Rattle.std.specs.Option.{option_copied};
ghost use Rattle.std.specs.Prelude.{◌≡◌, ◌++◌, ℕ, map, slice_get, take, true, IfOk, IsTrue, OnErr, OnOk};
ghost use Rattle.wm_collections.specs.Lists.{AllLater, NumbersAscend};
ghost use Rattle.wm_index.specs.Entries.{changed_at, has_seq, numbers_of, without};
ghost use Rattle.wm_machine.specs.Valid.{IsBefore};
ghost use Rattle.wm_steps.specs.Entries.{new_entry, prepared_entries, settling, tagging, untagged_by, with_changed, with_identified, with_untagged, without_entries, AreEntriesOf, AreIdentifiable, AreLeaving, HaveEntries, IsBegun, IsBegunIn, IsFollowable, IsLeaving, IsPrepared, LeavesEntry};
ghost use Rattle.wm_changes.specs.StepChanges.{changed_works, seqs_of};

use std::alloc::{AllocError, Global};
use wm_changes::{Replacement, StepChange};
use wm_collections::Text;
use wm_index::Index;
use wm_machine::Record;

/// The index of records, which stand in order.
pub fn index_of(alloc: Global, works: &[Record]) -> Result<Index, AllocError>
    requires { AllLater IsBefore works.now }
    ensures { IfOk result (λ index. AreEntriesOf works.now index) }
{
    let mut index = Index::new(alloc);
    for work in works {
        index.insert(
            work.seq,
            work.request.id(),
            name_of(work),
            work.request.tags().as_slice(),
        )?;
    }
    Ok(index)
}

/// Puts the tags and the records in that come by a change. Where memory is refused, the entries are
/// those of the records still.
pub fn prepare_entries(
    index: &mut Index,
    works: &[Record],
    change: &StepChange,
) -> Result<(), AllocError>
    requires entries { AreEntriesOf works.now index.old }
    requires follows { IsFollowable works.now change.now }
    ensures ok { OnOk result (index.new ≡ prepared_entries change.now index.old) }
    ensures err { OnErr result (AreEntriesOf works.now index.new) }
{
    if put_each(index, works, change).is_err() {
        undo_entries(index, works, change);
        return Err(AllocError);
    }
    Ok(())
}

/// Takes out what has come of a change, or some of it, so that the entries are those of the records.
/// It takes no memory.
pub fn undo_entries(index: &mut Index, works: &[Record], change: &StepChange)
    requires begun { IsBegun works.now change.now index.old }
    requires follows { IsFollowable works.now change.now }
    ensures { AreEntriesOf works.now index.new }
{
    untag_each(index, works, change.replaced.as_slice());
    drop_placed(index, change.placed.as_slice());
}

/// Takes out what goes by a change, and gives the new records their ids. It takes no memory.
pub fn settle_entries(index: &mut Index, works: &[Record], change: &StepChange)
    requires prepared { IsPrepared works.now change.now index.old }
    requires follows { IsFollowable works.now change.now }
    ensures { AreEntriesOf (changed_works change.now works.now) index.new }
{
    settle_each(index, works, change.replaced.as_slice());
    drop_each(index, change.removed.as_slice());
    identify_each(index, change.placed.as_slice());
}

/// Puts the tags and the records in that come by a change. Where memory is refused, some are in.
fn put_each(index: &mut Index, works: &[Record], change: &StepChange) -> Result<(), AllocError>
    requires there { HaveEntries change.now.replaced index.old }
    requires leaving { AreLeaving tagging works.now change.now.replaced index.old }
    requires ascending { NumbersAscend (numbers_of index.old ++ seqs_of change.now.placed) }
    ensures ok { OnOk result (index.new ≡ prepared_entries change.now index.old) }
    ensures err { OnErr result (IsBegunIn index.old change.now index.new) }
{
    tag_each(index, works, change.replaced.as_slice())?;
    add_each(index, change.placed.as_slice())
}

/// Whether two lists of tags are the same.
fn are_same(own: &[Text], tags: &[Text]) -> bool
    ensures { IsTrue result → own.now ≡ tags.now }
{
    own == tags
}

/// Whether a record that takes the place of another leaves the entry of that as it is.
fn leaves_entry(old: &Record, new: &Record) -> bool
    ensures { IsTrue result → LeavesEntry old.now new.now }
{
    (!old.name.is_some() || new.name.is_some())
        && are_same(new.request.tags().as_slice(), old.request.tags().as_slice())
}

/// Whether a record that is put in the place of another leaves the entry of that as it is.
fn is_leaving(works: &[Record], replaced: &Replacement) -> bool
    ensures { IsTrue result → IsLeaving works.now replaced.now }
{
    match works.get(replaced.index) {
        Some(old) => leaves_entry(old, &replaced.work),
        None => false,
    }
}

/// Gives the entries of records the tags of those. Where memory is refused, some have them.
fn tag_each(index: &mut Index, works: &[Record], replaced: &[Replacement]) -> Result<(), AllocError>
    requires there { HaveEntries replaced.now index.old }
    requires leaving { AreLeaving tagging works.now replaced.now index.old }
    ensures ok { OnOk result (index.new ≡ with_changed tagging replaced.now index.old) }
    ensures err { OnErr result ((count : ℕ) × (index.new ≡ with_changed tagging (take count replaced.now) index.old)) }
{
    for replacement in replaced {
        if !is_leaving(works, replacement) {
            tag_entry(index, &replacement.work)?;
        }
    }
    Ok(())
}

/// Gives the entry of a record the tags of that. Where memory is refused, it has its own alone.
fn tag_entry(index: &mut Index, work: &Record) -> Result<(), AllocError>
    requires { has_seq index.old work.now.seq ≡ true }
    ensures ok { OnOk result (index.new ≡ changed_at (tagging work.now) work.now.seq index.old) }
    ensures err { OnErr result (index.new ≡ index.old) }
{
    index.add_tags(work.seq, work.request.tags().as_slice())
}

/// Adds new records, which have no id yet. Where memory is refused, some are there.
fn add_each(index: &mut Index, placed: &[Record]) -> Result<(), AllocError>
    requires { NumbersAscend (numbers_of index.old ++ seqs_of placed.now) }
    ensures ok { OnOk result (index.new ≡ index.old ++ map new_entry placed.now) }
    ensures err { OnErr result ((count : ℕ) × (index.new ≡ index.old ++ map new_entry (take count placed.now))) }
{
    for work in placed {
        index.prepare(work.seq, name_of(work), work.request.tags().as_slice())?;
    }
    Ok(())
}

/// The unique name of a record, where it has one.
fn name_of(work: &Record) -> Option<&str>
    ensures { option_copied result ≡ work.now.name }
{
    match &work.name {
        Some(name) => Some(name.as_str()),
        None => None,
    }
}

/// Leaves the entries of records no other tags than these have, nor a unique name that they haven't.
fn settle_each(index: &mut Index, works: &[Record], replaced: &[Replacement])
    requires there { HaveEntries replaced.now index.old }
    requires leaving { AreLeaving settling works.now replaced.now index.old }
    ensures { index.new ≡ with_changed settling replaced.now index.old }
{
    for replacement in replaced {
        if !is_leaving(works, replacement) {
            settle_entry(index, &replacement.work);
        }
    }
}

/// Leaves the entry of a record no other tags than this has, nor a unique name that it hasn't.
fn settle_entry(index: &mut Index, work: &Record)
    requires { has_seq index.old work.now.seq ≡ true }
    ensures { index.new ≡ changed_at (settling work.now) work.now.seq index.old }
{
    index.keep_tags(work.seq, work.request.tags().as_slice());
    if work.name.is_none() {
        index.unname(work.seq);
    }
}

/// Leaves the entries of records that were to change no other tags than the records have.
fn untag_each(index: &mut Index, works: &[Record], replaced: &[Replacement])
    requires { HaveEntries replaced.now index.old }
    ensures { index.new ≡ with_untagged works.now replaced.now index.old }
{
    for replacement in replaced {
        untag_entry(index, works, replacement);
    }
}

/// Leaves the entry of a record that was to change no other tags than the record has.
fn untag_entry(index: &mut Index, works: &[Record], replaced: &Replacement)
    requires { has_seq index.old replaced.now.work.seq ≡ true }
    ensures { index.new ≡ untagged_by (slice_get works.now replaced.now.index) replaced.now.work.seq index.old }
{
    if let Some(work) = works.get(replaced.index) {
        index.keep_tags(replaced.work.seq, work.request.tags().as_slice());
    }
}

/// Takes the entry of a number out, where it is there.
fn drop_entry(index: &mut Index, seq: u64)
    ensures { index.new ≡ without seq index.old }
{
    if index.has(seq) {
        index.remove(seq);
    }
}

/// Takes the entries of numbers out, where they are there.
fn drop_each(index: &mut Index, numbers: &[u64])
    ensures { index.new ≡ without_entries numbers.now index.old }
{
    for number in numbers {
        drop_entry(index, *number);
    }
}

/// Takes the entries of new records out, where they are there.
fn drop_placed(index: &mut Index, placed: &[Record])
    ensures { index.new ≡ without_entries (seqs_of placed.now) index.old }
{
    for work in placed {
        drop_entry(index, work.seq);
    }
}

/// Gives the entries of new records their ids.
fn identify_each(index: &mut Index, placed: &[Record])
    requires { AreIdentifiable placed.now index.old }
    ensures { index.new ≡ with_identified placed.now index.old }
{
    for work in placed {
        index.identify(work.seq, work.request.id());
    }
}
