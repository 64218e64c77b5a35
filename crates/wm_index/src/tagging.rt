//! How the name and the tags of a work that is there change.
ghost use Rattle.std.specs.Prelude.{◌≡◌, ◌&&◌, true, not, IfOk, OnErr, OnOk};
ghost use Rattle.wm_index.specs.Entries.{adding_tags, changed_at, has_seq, has_tag, keeping_tags, unnamed};
ghost use Rattle.wm_index.specs.Groups.{has, Ids, IsParted, Table};
ghost use Rattle.wm_index.specs.Works.{entries_of, missing_at, with_tags, AreAscending, IsChanged, IsKept};

use crate::adding::leave_name;
use crate::groups::{Groups, join_each, leave, leave_each};
use crate::work::{Work, are_same, has_tag};
use std::alloc::{AllocError, Global};
use std::collections::BTreeMap;
use wm_collections::Text;

/// Takes the name of a work away. It takes no memory.
pub fn unname_work(works: &mut BTreeMap<u64, Work>, names: &mut Groups, seq: u64)
    ensures kept { (ids : Ids) (tags : Table) → IsKept works.old.entries ids (has names.old) tags
        → IsKept works.new.entries ids (has names.new) tags }
    ensures unnamed { entries_of works.new.entries ≡ changed_at unnamed seq (entries_of works.old.entries) }
{
    if let Some(work) = works.get_mut(&seq) {
        leave_name(names, work, seq);
        work.unname();
    }
}

/// Those of these tags that a work hasn't.
fn missing_of(
    alloc: Global,
    works: &BTreeMap<u64, Work>,
    seq: u64,
    tags: &[Text],
) -> Result<Vec<Text>, AllocError>
    ensures { IfOk result (λ missing. missing.items ≡ missing_at works.now.entries seq tags.now) }
{
    match works.get(&seq) {
        Some(work) => work.missing(alloc, tags),
        None => Ok(Vec::new(alloc)),
    }
}

/// Gives a work these tags, which are taken out of their list. Where memory is refused, all are as
/// they were.
fn append_to(
    works: &mut BTreeMap<u64, Work>,
    seq: u64,
    tags: &mut Vec<Text>,
) -> Result<(), AllocError>
    ensures ok { OnOk result (IsChanged (with_tags tags.old.items) seq works.old.entries works.new.entries) }
    ensures err { OnErr result (works.new.entries ≡ works.old.entries) }
    ensures tags { OnErr result (tags.new.items ≡ tags.old.items) }
{
    match works.get_mut(&seq) {
        Some(work) => work.append(tags),
        None => Ok(()),
    }
}

/// Gives a work these tags besides its own. Where memory is refused, all is as it was.
pub fn tag_work(
    alloc: Global,
    works: &mut BTreeMap<u64, Work>,
    groups: &mut Groups,
    seq: u64,
    tags: &[Text],
) -> Result<(), AllocError>
    requires there { has_seq (entries_of works.old.entries) seq ≡ true }
    requires ascending { AreAscending (entries_of works.old.entries) }
    ensures kept { (ids : Ids) (names : Table) → IsKept works.old.entries ids names (has groups.old)
        → IsKept works.new.entries ids names (has groups.new) }
    ensures ok { OnOk result (entries_of works.new.entries
        ≡ changed_at (adding_tags tags.now) seq (entries_of works.old.entries)) }
    ensures err { OnErr result (works.new.entries ≡ works.old.entries) }
{
    let mut missing = missing_of(alloc, works, seq, tags)?;
    if join_each(alloc, groups, missing.as_slice(), seq).is_err() {
        leave_each(groups, missing.as_slice(), seq);
        return Err(AllocError);
    }
    if append_to(works, seq, &mut missing).is_err() {
        leave_each(groups, missing.as_slice(), seq);
        return Err(AllocError);
    }
    Ok(())
}

/// Takes a work out of the groups of those of its tags that aren't among others.
fn leave_unkept(groups: &mut Groups, own: &[Text], tags: &[Text], seq: u64)
    ensures { IsParted (λ tag. has_tag own.now tag && not (has_tag tags.now tag)) seq (has groups.old) (has groups.new) }
{
    if are_same(own, tags) {
        return;
    }
    for tag in own {
        if !has_tag(tags, tag) {
            leave(groups, tag.as_str(), seq);
        }
    }
}

/// Leaves a work only those of its tags that are among these. It takes no memory.
pub fn untag_work(works: &mut BTreeMap<u64, Work>, groups: &mut Groups, seq: u64, tags: &[Text])
    ensures kept { (ids : Ids) (names : Table) → IsKept works.old.entries ids names (has groups.old)
        → IsKept works.new.entries ids names (has groups.new) }
    ensures keeping { entries_of works.new.entries
        ≡ changed_at (keeping_tags tags.now) seq (entries_of works.old.entries) }
{
    if let Some(work) = works.get_mut(&seq) {
        leave_unkept(groups, work.tags(), tags, seq);
        work.keep(tags);
    }
}
