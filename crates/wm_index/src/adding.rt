//! How a work is added and taken away, with its places among the groups.
ghost use Rattle.std.specs.BTreeMap.{insert_entry};
ghost use Rattle.std.specs.Ordering.{nat_cmp};
ghost use Rattle.std.specs.Prelude.{◌≡◌, ◌+◌, ◌≤◌, false, true, None, is_none, if◌then◌else◌, IfSome, OnErr, OnOk};
ghost use Rattle.indexmap.specs.IndexMap.{index_map_len, spare};
ghost use Rattle.wm_index.specs.Entries.{by_id, changed_at, has_seq, has_tag, has_unidentified, identified, is_id, is_name, without};
ghost use Rattle.wm_index.specs.Groups.{has, has_id, ids_of, IsJoined, IsParted, KeepsOthers, Table};
ghost use Rattle.wm_index.specs.Works.{entries_of, AreKnown, IsKept};

use crate::groups::{Groups, join, join_each, leave, leave_each};
use crate::work::Work;
use indexmap::IndexMap;
use std::alloc::{AllocError, Global};
use std::collections::BTreeMap;
use uuid::Uuid;

/// Takes a work out of the group of its name, where it has one.
pub fn leave_name(names: &mut Groups, work: &Work, seq: u64)
    ensures { IsParted (λ name. is_name name work.now.name) seq (has names.old) (has names.new) }
{
    if let Some(name) = work.name() {
        leave(names, name, seq);
    }
}

/// Adds a work to the group of its name, where it has one.
fn join_name(alloc: Global, names: &mut Groups, work: &Work, seq: u64) -> Result<(), AllocError>
    ensures ok { OnOk result (IsJoined (λ name. is_name name work.now.name) seq (has names.old) (has names.new)) }
    ensures others { KeepsOthers (λ name. is_name name work.now.name) seq (has names.old) (has names.new) }
{
    match work.name() {
        Some(name) => join(alloc, names, name, seq),
        None => Ok(()),
    }
}

/// Adds a work to the groups of its name and of its tags. Where memory is refused, it may be in
/// some of them.
fn link(
    alloc: Global,
    names: &mut Groups,
    tags: &mut Groups,
    work: &Work,
    seq: u64,
) -> Result<(), AllocError>
    ensures names { OnOk result (IsJoined (λ name. is_name name work.now.name) seq (has names.old) (has names.new)) }
    ensures tags { OnOk result (IsJoined (has_tag work.now.tags) seq (has tags.old) (has tags.new)) }
    ensures other_names { KeepsOthers (λ name. is_name name work.now.name) seq (has names.old) (has names.new) }
    ensures other_tags { KeepsOthers (has_tag work.now.tags) seq (has tags.old) (has tags.new) }
{
    join_name(alloc, names, work, seq)?;
    join_each(alloc, tags, work.tags(), seq)
}

/// Takes a work out of the groups of its name and of its tags.
fn unlink(names: &mut Groups, tags: &mut Groups, work: &Work, seq: u64)
    ensures names { IsParted (λ name. is_name name work.now.name) seq (has names.old) (has names.new) }
    ensures tags { IsParted (has_tag work.now.tags) seq (has tags.old) (has tags.new) }
{
    leave_name(names, work, seq);
    leave_each(tags, work.tags(), seq);
}

/// Adds a work without an id, and makes room for its id. Where memory is refused, all works and
/// groups are as they were.
pub fn add_work(
    alloc: Global,
    works: &mut BTreeMap<u64, Work>,
    ids: &mut IndexMap<Uuid, u64>,
    names: &mut Groups,
    tags: &mut Groups,
    seq: u64,
    work: Work,
) -> Result<(), AllocError>
    requires kept { IsKept works.old.entries (ids_of ids.old) (has names.old) (has tags.old) }
    requires seq { has_seq (entries_of works.old.entries) seq ≡ false }
    requires id { work.id ≡ None }
    ensures kept { IsKept works.new.entries (ids_of ids.new) (has names.new) (has tags.new) }
    ensures ok { OnOk result (works.new.entries ≡ insert_entry nat_cmp works.old.entries seq work) }
    ensures err { OnErr result (works.new.entries ≡ works.old.entries) }
{
    ids.reserve(works.len() - ids.len() + 1)?;
    if link(alloc, names, tags, &work, seq).is_err() {
        unlink(names, tags, &work, seq);
        return Err(AllocError);
    }
    match works.insert(seq, work) {
        Ok(_before) => Ok(()),
        Err(refused) => {
            let (_, work) = refused.value;
            unlink(names, tags, &work, seq);
            Err(AllocError)
        }
    }
}

/// Gives a work without an id this id, for which there is room. It takes no memory.
pub fn identify_work(
    works: &mut BTreeMap<u64, Work>,
    ids: &mut IndexMap<Uuid, u64>,
    seq: u64,
    id: Uuid,
)
    requires there { has_unidentified (entries_of works.old.entries) seq ≡ true }
    requires id { by_id (entries_of works.old.entries) id ≡ None }
    requires ids { AreKnown works.old.entries (ids_of ids.old) }
    ensures kept { (names tags : Table) → IsKept works.old.entries (ids_of ids.old) names tags
        → IsKept works.new.entries (ids_of ids.new) names tags }
    ensures identified { entries_of works.new.entries ≡ changed_at (identified id) seq (entries_of works.old.entries) }
{
    if let Some(work) = works.get_mut(&seq) {
        work.identify(id);
        let _before = ids.insert(id, seq).unwrap();
    }
}

/// Takes the id of a work away, where it has one. It takes no memory.
fn leave_id(ids: &mut IndexMap<Uuid, u64>, work: &Work, seq: u64)
    requires { IfSome work.now.id (λ id. has_id ids.old.entries id seq ≡ true) }
    ensures parted { IsParted (λ id. is_id id work.now.id) seq (has_id ids.old.entries) (has_id ids.new.entries) }
    ensures known { index_map_len ids.new + (if is_none work.now.id then 0 else 1) ≡ index_map_len ids.old }
    ensures room { spare ids.old ≤ spare ids.new }
{
    if let Some(id) = work.id() {
        ids.swap_remove(&id);
    }
}

/// Takes a work away. It takes no memory.
pub fn remove_work(
    works: &mut BTreeMap<u64, Work>,
    ids: &mut IndexMap<Uuid, u64>,
    names: &mut Groups,
    tags: &mut Groups,
    seq: u64,
)
    requires kept { IsKept works.old.entries (ids_of ids.old) (has names.old) (has tags.old) }
    ensures kept { IsKept works.new.entries (ids_of ids.new) (has names.new) (has tags.new) }
    ensures without { entries_of works.new.entries ≡ without seq (entries_of works.old.entries) }
{
    if let Some(work) = works.remove(&seq) {
        unlink(names, tags, &work, seq);
        leave_id(ids, &work, seq);
    }
}
