//! Rows in ascending number, and what changes make of them.
ghost use Rattle.std.specs.Prelude.{◌≡◌, ◌+◌, ◌<◌, ◌≤◌, ◌<ℤ◌, length, vec_len, vec_capacity, IfOk, IfErr, OnOk, OnErr};
ghost use Rattle.std.specs.List.{HoldsAt};
ghost use Rattle.std.specs.List.Sorted.{IsSearchInRange, IsPartitionPoint};
ghost use Rattle.wm_keeper.specs.Keeper.{Ascends, changed, changed_by, put_row, remove_row};
ghost use Rattle.wm_keeper.specs.Ascends.{Ascends-prop};

use crate::row::{Change, Row};
use std::alloc::{AllocError, Global};
use wm_collections::Replica;

/// Rows in strictly ascending number.
#[derive(Drop)]
pub struct Rows {
    rows: Vec<Row>,
    ghost ascending: { Ascends rows.items } by { Ascends-prop rows.items },
}

impl Rows {
    /// The rows of a `Vec`, which it takes over.
    pub fn from_vec(rows: Vec<Row>) -> Rows
        requires { Ascends rows.items }
        ensures { result.rows.items ≡ rows.items }
    {
        Rows { rows }
    }

    pub fn as_slice(&self) -> &[Row]
        ensures rows { result.now ≡ self.now.rows.items }
        ensures ascending { Ascends result.now }
    {
        self.rows.as_slice()
    }

    /// Gives the rows as a `Vec`.
    pub fn into_vec(self) -> Vec<Row>
        ensures rows { result.items ≡ self.rows.items }
        ensures ascending { Ascends result.items }
    {
        self.rows
    }

    /// Where its memory comes from.
    pub fn alloc(&self) -> Global {
        *self.rows.allocator()
    }

    /// Copies of the rows.
    pub fn copies(&self) -> Result<Vec<Row>, AllocError>
        ensures { IfOk result (λ copies. copies.items ≡ self.now.rows.items) }
    {
        replicas(&self.rows, self.alloc())
    }

    /// Makes the changes, all or none. All memory is taken before the first of them is made, and no
    /// row is touched that they don't name.
    pub fn change(&mut self, changes: &[Change]) -> Result<(), AllocError>
        ensures ok { OnOk result (self.new.rows.items ≡ changed changes.now self.old.rows.items) }
        ensures err { OnErr result (self.new.rows.items ≡ self.old.rows.items) }
    {
        let copies = replicas(changes, self.alloc())?;
        self.rows.reserve(copies.len())?;
        make_changes(&mut self.rows, copies);
        Ok(())
    }
}

/// Copies of the values.
fn replicas<T: Replica>(values: &[T], alloc: Global) -> Result<Vec<T>, AllocError>
    ensures { IfOk result (λ copies. copies.items ≡ values.now) }
{
    let mut copies = Vec::with_capacity(alloc, values.len())?;
    for value in values {
        copies.push(value.replica(alloc)?)?;
    }
    Ok(copies)
}

/// Makes the changes one after another. There is room for a row of each.
fn make_changes(rows: &mut Vec<Row>, changes: Vec<Change>)
    requires ascending { Ascends rows.old.items }
    requires room { vec_len rows.old + vec_len changes ≤ vec_capacity rows.old }
    ensures changed { rows.new.items ≡ changed changes.items rows.old.items }
    ensures ascending { Ascends rows.new.items }
{
    for change in changes {
        make_change(rows, change);
    }
}

/// Makes one change. There is room for a row.
fn make_change(rows: &mut Vec<Row>, change: Change)
    requires ascending { Ascends rows.old.items }
    requires room { vec_len rows.old < vec_capacity rows.old }
    ensures changed { rows.new.items ≡ changed_by change rows.old.items }
    ensures len { vec_len rows.new ≤ vec_len rows.old + 1 }
    ensures capacity { vec_capacity rows.new ≡ vec_capacity rows.old }
{
    match change {
        Change::Put(row) => put(rows, row),
        Change::Remove(seq) => remove(rows, seq),
    }
}

/// Puts the row under its number, in place of any that stands there. There is room for it.
fn put(rows: &mut Vec<Row>, row: Row)
    requires ascending { Ascends rows.old.items }
    requires room { vec_len rows.old < vec_capacity rows.old }
    ensures put { rows.new.items ≡ put_row row rows.old.items }
    ensures len { vec_len rows.new ≤ vec_len rows.old + 1 }
    ensures capacity { vec_capacity rows.new ≡ vec_capacity rows.old }
{
    match search(rows, row.seq) {
        Ok(index) => rows[index] = row,
        Err(index) => rows.insert(index, row).unwrap(),
    }
}

/// Removes the row of this number, if there is one.
fn remove(rows: &mut Vec<Row>, seq: i64)
    requires { Ascends rows.old.items }
    ensures removed { rows.new.items ≡ remove_row seq rows.old.items }
    ensures len { vec_len rows.new ≤ vec_len rows.old }
    ensures capacity { vec_capacity rows.new ≡ vec_capacity rows.old }
{
    if let Ok(index) = search(rows, seq) {
        let _ = rows.remove(index);
    }
}

/// Where the row of this number stands, or where it would.
fn search(rows: &[Row], seq: i64) -> Result<usize, usize>
    requires { Ascends rows.now }
    ensures within { IsSearchInRange result (length rows.now) }
    ensures found { IfOk result (HoldsAt (λ row. row.seq ≡ seq) rows.now) }
    ensures missing { IfErr result (IsPartitionPoint (λ row. row.seq <ℤ seq) (λ row. seq <ℤ row.seq) rows.now) }
{
    rows.binary_search_by_key(&seq, |row| row.seq)
}
