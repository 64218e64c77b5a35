//! The changes that wait, at most one of a number.
ghost use Rattle.std.specs.Map.{values_of};
ghost use Rattle.std.specs.Ordering.{int_eq};
ghost use Rattle.std.specs.Prelude.{◌≡◌, ◌==◌, ◌+◌, ◌<◌, ◌≤◌, [], ◌∷◌, length, IfOk, OnOk, OnErr, vec_len};
ghost use Rattle.indexmap.specs.IndexMap.{spare, IsUnique};
ghost use Rattle.wm_keeper.specs.Keeper.{changed_number, AreOfDifferentNumbers};
ghost use Rattle.wm_gathering.specs.Gathering.{AreMerged};
ghost use Rattle.wm_gathering.specs.Waiting.{AreByNumber};

use indexmap::IndexMap;
use std::alloc::{AllocError, Global};
use std::marker::Model;
use wm_collections::Replica;
use wm_keeper::Change;

/// Changes that wait, no two of them of one number. A contract sees them as their list, in the order
/// in which their numbers first came.
///
/// To gather a change takes a copy of it and one look-up by its number, however many wait.
#[derive(Drop)]
pub struct Waiting {
    changes: IndexMap<i64, Change>,
}

impl Model for Waiting {
    ghost use Rattle.std.specs.Map.{values_of};
    ghost use Rattle.std.specs.Prelude.{List};
    ghost use Rattle.wm_keeper.specs.declared.row.Change.{Change};
    ghost use Rattle.wm_gathering.specs.Waiting.{AreByNumber};

    ghost Value = { List Change };

    ghost view = { λ waiting. values_of waiting.changes.entries };

    ghost invariant = { λ waiting. AreByNumber waiting.changes.entries };
}

impl Waiting {
    /// No change. It takes no memory.
    pub fn new(alloc: Global) -> Waiting
        ensures { result ≡ [] }
    {
        Waiting {
            changes: IndexMap::new(alloc),
        }
    }

    /// The changes.
    pub fn as_slice(&self) -> &[Change]
        ensures changes { result.now ≡ self.now }
        ensures different { AreOfDifferentNumbers self.now }
    {
        self.changes.as_slice().values().as_slice()
    }

    /// Whether none waits.
    pub fn is_empty(&self) -> bool
        ensures { result ≡ (length self.now == 0) }
    {
        self.as_slice().is_empty()
    }

    /// Adds changes in turn, each in place of one of its number that waits. Where memory is refused,
    /// all wait that did before.
    pub fn gather(&mut self, changes: &[Change]) -> Result<(), AllocError>
        ensures ok { OnOk result (AreMerged changes.now self.old self.new) }
        ensures err { OnErr result (self.new ≡ self.old) }
    {
        let copies = copies_of(*self.changes.allocator(), changes)?;
        self.changes.reserve(copies.len())?;
        put_each(&mut self.changes, copies);
        Ok(())
    }

    /// Lets all of them go, and keeps the room that they had.
    pub fn clear(&mut self)
        ensures { self.new ≡ [] }
    {
        self.changes.clear();
    }
}

/// The number that a change is about.
fn number_of(change: &Change) -> i64
    ensures { result ≡ changed_number change.now }
{
    match change {
        Change::Put(row) => row.seq,
        Change::Remove(seq) => *seq,
    }
}

/// Copies of changes.
fn copies_of(alloc: Global, changes: &[Change]) -> Result<Vec<Change>, AllocError>
    ensures { IfOk result (λ copies. copies.items ≡ changes.now) }
{
    let mut copies = Vec::with_capacity(alloc, changes.len())?;
    for change in changes {
        copies.push(change.replica(alloc)?)?;
    }
    Ok(copies)
}

/// Puts changes under their numbers in turn. There is room for all.
fn put_each(waiting: &mut IndexMap<i64, Change>, changes: Vec<Change>)
    requires by_number { AreByNumber waiting.old.entries }
    requires unique { IsUnique int_eq waiting.old }
    requires room { vec_len changes ≤ spare waiting.old }
    ensures by_number { AreByNumber waiting.new.entries }
    ensures merged { AreMerged changes.items (values_of waiting.old.entries) (values_of waiting.new.entries) }
{
    for change in changes {
        put(waiting, change);
    }
}

/// Puts a change under its number, in place of any that stands there. There is room for it.
fn put(waiting: &mut IndexMap<i64, Change>, change: Change)
    requires by_number { AreByNumber waiting.old.entries }
    requires unique { IsUnique int_eq waiting.old }
    requires room { 0 < spare waiting.old }
    ensures by_number { AreByNumber waiting.new.entries }
    ensures unique { IsUnique int_eq waiting.new }
    ensures room { spare waiting.old ≤ spare waiting.new + 1 }
    ensures merged { AreMerged (change ∷ []) (values_of waiting.old.entries) (values_of waiting.new.entries) }
{
    let number = number_of(&change);
    drop(waiting.insert(number, change).unwrap());
}
