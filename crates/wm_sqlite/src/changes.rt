//! Changes of the tables, all or none.
ghost use Rattle.sqlite.specs.Held.{state};
ghost use Rattle.sqlite.specs.State.{HasCleanDisk};
ghost use Rattle.sqlite_trees.specs.Tree.{Trees};
ghost use Rattle.std.specs.Prelude.{◌≡◌, ◌⊎◌, [], ◌∷◌, false, string_bytes, List, IsTrue, OnOk, OnErr};
ghost use Rattle.wm_keeper.specs.Keeper.{put_row};
ghost use Rattle.wm_keeper.specs.declared.row.Row.{Row};
ghost use Rattle.wm_columns.specs.Values.{AreLists};
ghost use Rattle.wm_sqlite.specs.Held.{added, all_rows, held_in, removed, tables_in, without, AreNumbered};
ghost use Rattle.wm_sqlite.specs.Resting.{with_changes, AreSpread, Makes, RestsWith, WasOpen};
ghost use Rattle.wm_sqlite.specs.Steps.{IsStep, MakesWhere};

use crate::standing::Spread;
use crate::statements::{check_open, delete_first, delete_second, insert_row};
use sqlite::{Alter, Connection, Error, Transaction};
use std::alloc::Global;
use wm_columns::list_columns;
use wm_keeper::{Change, Row};

/// Makes the changes in one transaction: the removed numbers are deleted, and then each row that is
/// put takes the place of any under its number. No transaction is open.
pub(crate) fn change_rows<A: Alter>(
    connection: &mut Connection<A>,
    alloc: Global,
    spread: Spread,
    changes: &[Change],
) -> Result<(), Error>
    requires { connection.old.in_transaction ≡ false }
    ensures mode { connection.new.in_transaction ≡ false }
    ensures clean { HasCleanDisk (state A.Store connection.new)
        → HasCleanDisk (state A.Store connection.old) }
    ensures was_open { WasOpen A.Store connection.old connection.new }
    ensures opened { HasCleanDisk (state A.Store connection.new)
        → OnOk result (IsTrue (state A.Store connection.old).is_open) }
    ensures ok { HasCleanDisk (state A.Store connection.new) → OnOk result ((rows : List Row)
        → RestsWith A.Store spread rows connection.old → RestsWith A.Store spread (with_changes changes.now rows) connection.new) }
    ensures err { HasCleanDisk (state A.Store connection.new)
        → IsTrue (state A.Store connection.new).is_open
        → OnErr result ((rows : List Row) → RestsWith A.Store spread rows connection.old → RestsWith A.Store spread rows connection.new) }
    ensures crash { HasCleanDisk (state A.Store connection.new) → (left : Trees)
        → (state A.Store connection.new).may_leave left
        → (state A.Store connection.old).may_leave left
        ⊎ (IsTrue (state A.Store connection.old).is_open × ((rows : List Row)
        → RestsWith A.Store spread rows connection.old → held_in (all_rows (tables_in left)) ≡ with_changes changes.now rows)) }
{
    let mut transaction = connection.transaction();
    make_changes(&mut transaction, alloc, spread, changes)?;
    transaction.commit()
}

/// Makes the changes in a transaction.
fn make_changes<A: Alter>(
    transaction: &mut Transaction<'_, A>,
    alloc: Global,
    spread: Spread,
    changes: &[Change],
) -> Result<(), Error>
    ensures step { IsStep A.Store (Makes A.Store spread (with_changes changes.now)) result transaction.old.conn transaction.new.conn }
    ensures opened { OnOk result (HasCleanDisk (state A.Store transaction.new.conn.now)
        → IsTrue (state A.Store transaction.old.conn.now).is_open) }
{
    check_open(transaction)?;
    remove_rows(transaction, spread, changes)?;
    put_rows(transaction, alloc, spread, changes)
}

/// Deletes the rows whose numbers are removed.
fn remove_rows<A: Alter>(
    transaction: &mut Transaction<'_, A>,
    spread: Spread,
    changes: &[Change],
) -> Result<(), Error>
    ensures { IsStep A.Store (Makes A.Store spread (removed changes.now)) result transaction.old.conn transaction.new.conn }
{
    for change in changes {
        remove_row(transaction, spread, change)?;
    }
    Ok(())
}

/// Deletes the row whose number is removed, if there is one, and answers how many it deleted.
fn remove_row<A: Alter>(
    transaction: &mut Transaction<'_, A>,
    spread: Spread,
    change: &Change,
) -> Result<usize, Error>
    ensures { IsStep A.Store (Makes A.Store spread (removed (change.now ∷ []))) result transaction.old.conn transaction.new.conn }
{
    match change {
        Change::Remove(seq) => delete_row(transaction, spread, seq),
        Change::Put(_) => Ok(0),
    }
}

/// Puts the rows that are put.
fn put_rows<A: Alter>(
    transaction: &mut Transaction<'_, A>,
    alloc: Global,
    spread: Spread,
    changes: &[Change],
) -> Result<(), Error>
    ensures { IsStep A.Store (Makes A.Store spread (added changes.now)) result transaction.old.conn transaction.new.conn }
{
    for change in changes {
        put_row(transaction, alloc, spread, change)?;
    }
    Ok(())
}

/// Puts the row that is put, and answers how many it inserted.
fn put_row<A: Alter>(
    transaction: &mut Transaction<'_, A>,
    alloc: Global,
    spread: Spread,
    change: &Change,
) -> Result<usize, Error>
    ensures { IsStep A.Store (Makes A.Store spread (added (change.now ∷ []))) result transaction.old.conn transaction.new.conn }
{
    match change {
        Change::Put(row) => replace_row(transaction, alloc, spread, row),
        Change::Remove(_) => Ok(0),
    }
}

/// Puts a row in place of any under its number.
fn replace_row<A: Alter>(
    transaction: &mut Transaction<'_, A>,
    alloc: Global,
    spread: Spread,
    row: &Row,
) -> Result<usize, Error>
    ensures { IsStep A.Store (Makes A.Store spread (put_row row.now)) result transaction.old.conn transaction.new.conn }
{
    let lists = list_columns(alloc, row)?;
    replace_stored(transaction, spread, row, &lists.prior, &lists.tags)
}

/// Puts a row, whose lists are written as these, in place of any under its number.
fn replace_stored<A: Alter>(
    transaction: &mut Transaction<'_, A>,
    spread: Spread,
    row: &Row,
    prior: &Vec<u8>,
    tags: &String,
) -> Result<usize, Error>
    requires { AreLists row.now prior.now.items (string_bytes tags.now) }
    ensures { IsStep A.Store (Makes A.Store spread (put_row row.now)) result transaction.old.conn transaction.new.conn }
{
    delete_row(transaction, spread, &row.seq)?;
    insert_row(transaction, row, prior, tags)
}

/// Deletes the rows of this number, if there are some. `work` isn't asked where it is empty.
fn delete_row<A: Alter>(
    transaction: &mut Transaction<'_, A>,
    spread: Spread,
    seq: &i64,
) -> Result<usize, Error>
    ensures { IsStep A.Store (MakesWhere A.Store (λ tables. AreNumbered tables.0 × AreNumbered tables.1 × AreSpread spread tables) (without seq.now)) result transaction.old.conn transaction.new.conn }
{
    match spread {
        Spread::Both => delete_both(transaction, seq),
        Spread::Second => delete_second(transaction, seq),
    }
}

/// Deletes the rows of this number from both tables.
fn delete_both<A: Alter>(transaction: &mut Transaction<'_, A>, seq: &i64) -> Result<usize, Error>
    ensures { IsStep A.Store (MakesWhere A.Store (λ tables. AreNumbered tables.0 × AreNumbered tables.1) (without seq.now)) result transaction.old.conn transaction.new.conn }
{
    delete_first(transaction, seq)?;
    delete_second(transaction, seq)
}
