//! The statements, each in a function of its own with one call of the database, inside a
//! transaction.
ghost use Rattle.sqlite.specs.Held.{state};
ghost use Rattle.sqlite.specs.State.{HasCleanDisk};
ghost use Rattle.sqlite_value.specs.Value.{owned};
ghost use Rattle.sqlite_trees.specs.Tree.{without_rowid};
ghost use Rattle.sqlite_value.specs.declared.value.Value.TheVariants.{Int};
ghost use Rattle.std.specs.Prelude.{◌≡◌, [], map, string_bytes, IsTrue, IfOk, OnOk};
ghost use Rattle.wm_sqlite.specs.Held.{with_cells, AreNumbered};
ghost use Rattle.wm_sqlite.specs.Standing.{ShowsTable, StandsWith};
ghost use Rattle.wm_sqlite.specs.Steps.{IsStep, MakesFirst, MakesSecond, MakesTables, MakesWhere};
ghost use Rattle.wm_columns.specs.Values.{values_of};
ghost use Rattle.wm_sqlite.specs.Table.{carried, cells};

use sqlite::types::ValueRef;
use sqlite::{Alter, Error, Row as ShownRow, Transaction};
use wm_columns::values_of;
use wm_keeper::Row;

/// Makes `work` where there is none of its name.
pub(crate) fn make_first<A: Alter>(transaction: &mut Transaction<'_, A>) -> Result<usize, Error>
    ensures step { IsStep A.Store (MakesFirst A.Store) result transaction.old.conn transaction.new.conn }
    ensures opened { HasCleanDisk (state A.Store transaction.new.conn.now)
        → OnOk result (IsTrue (state A.Store transaction.old.conn.now).is_open) }
{
    transaction.execute(
        "CREATE TABLE IF NOT EXISTS work(version INTEGER NOT NULL, seq INTEGER PRIMARY KEY, id BLOB NOT NULL, name TEXT, class TEXT NOT NULL, kind INTEGER NOT NULL, period INTEGER NOT NULL, flex INTEGER NOT NULL, delay INTEGER NOT NULL, policy INTEGER NOT NULL, wait INTEGER NOT NULL, merger INTEGER NOT NULL, network INTEGER NOT NULL, flags INTEGER NOT NULL, phase INTEGER NOT NULL, attempt INTEGER NOT NULL, backoff_n INTEGER NOT NULL, runs INTEGER NOT NULL, generation INTEGER NOT NULL, enqueued_at INTEGER NOT NULL, input TEXT NOT NULL, output TEXT NOT NULL, prior BLOB NOT NULL, tags TEXT NOT NULL) STRICT",
        &[],
    )
}

/// Makes `work2` where there is none of its name.
pub(crate) fn make_second<A: Alter>(transaction: &mut Transaction<'_, A>) -> Result<usize, Error>
    ensures { IsStep A.Store (MakesSecond A.Store) result transaction.old.conn transaction.new.conn }
{
    transaction.execute(
        "CREATE TABLE IF NOT EXISTS work2(version INTEGER NOT NULL, seq INTEGER PRIMARY KEY, id BLOB NOT NULL, name TEXT, class TEXT NOT NULL, kind INTEGER NOT NULL, period INTEGER NOT NULL, flex INTEGER NOT NULL, delay INTEGER NOT NULL, policy INTEGER NOT NULL, wait INTEGER NOT NULL, merger INTEGER NOT NULL, network INTEGER NOT NULL, flags INTEGER NOT NULL, phase INTEGER NOT NULL, attempt INTEGER NOT NULL, backoff_n INTEGER NOT NULL, runs INTEGER NOT NULL, generation INTEGER NOT NULL, enqueued_at INTEGER NOT NULL, input TEXT NOT NULL, output TEXT NOT NULL, prior BLOB NOT NULL, tags TEXT NOT NULL, next_at INTEGER NOT NULL, keep_for INTEGER NOT NULL, finished_at INTEGER NOT NULL) STRICT",
        &[],
    )
}

/// Refuses where the store is shut, since a statement is prepared.
pub(crate) fn check_open<A: Alter>(transaction: &mut Transaction<'_, A>) -> Result<(), Error>
    ensures step { IsStep A.Store (MakesTables A.Store (λ tables. tables)) result transaction.old.conn transaction.new.conn }
    ensures opened { HasCleanDisk (state A.Store transaction.new.conn.now)
        → OnOk result (IsTrue (state A.Store transaction.old.conn.now).is_open) }
{
    transaction.prepare("DELETE FROM work2 WHERE seq = ?1")?;
    Ok(())
}

/// All rows of `work` as rows of `work2`, in ascending number.
pub(crate) fn select_first<A: Alter>(
    transaction: &mut Transaction<'_, A>,
) -> Result<Vec<ShownRow>, Error>
    ensures step { IsStep A.Store (MakesTables A.Store (λ tables. tables)) result transaction.old.conn transaction.new.conn }
    ensures rows { HasCleanDisk (state A.Store transaction.new.conn.now)
        → IfOk result (λ rows. (base : _) (tables : _) → StandsWith A.Store base tables transaction.old.conn.now
        → ShowsTable (map carried tables.0) rows.items) }
{
    transaction.query_all(
        "SELECT version, seq, id, name, class, kind, period, flex, delay, policy, wait, merger, network, flags, phase, attempt, backoff_n, runs, generation, enqueued_at, input, output, prior, tags, -1, 0, 0 FROM work ORDER BY seq",
        &[],
    )
}

/// All rows of `work2`, in ascending number.
pub(crate) fn select_second<A: Alter>(
    transaction: &mut Transaction<'_, A>,
) -> Result<Vec<ShownRow>, Error>
    ensures step { IsStep A.Store (MakesTables A.Store (λ tables. tables)) result transaction.old.conn transaction.new.conn }
    ensures rows { HasCleanDisk (state A.Store transaction.new.conn.now)
        → IfOk result (λ rows. (base : _) (tables : _) → StandsWith A.Store base tables transaction.old.conn.now
        → ShowsTable tables.1 rows.items) }
{
    transaction.query_all(
        "SELECT version, seq, id, name, class, kind, period, flex, delay, policy, wait, merger, network, flags, phase, attempt, backoff_n, runs, generation, enqueued_at, input, output, prior, tags, next_at, keep_for, finished_at FROM work2 ORDER BY seq",
        &[],
    )
}

/// Deletes the row of this number from `work`, if there is one.
pub(crate) fn delete_first<A: Alter>(
    transaction: &mut Transaction<'_, A>,
    seq: &i64,
) -> Result<usize, Error>
    ensures { IsStep A.Store (MakesWhere A.Store (λ tables. AreNumbered tables.0) (λ tables. (without_rowid seq.now tables.0, tables.1))) result transaction.old.conn transaction.new.conn }
{
    let number = number_of(seq);
    transaction.execute("DELETE FROM work WHERE seq = ?1", &[number])
}

/// Deletes the row of this number from `work2`, if there is one.
pub(crate) fn delete_second<A: Alter>(
    transaction: &mut Transaction<'_, A>,
    seq: &i64,
) -> Result<usize, Error>
    ensures { IsStep A.Store (MakesWhere A.Store (λ tables. AreNumbered tables.1) (λ tables. (tables.0, without_rowid seq.now tables.1))) result transaction.old.conn transaction.new.conn }
{
    let number = number_of(seq);
    transaction.execute("DELETE FROM work2 WHERE seq = ?1", &[number])
}

/// Inserts a row into `work2`, whose lists are written as these. It takes the place of none: a
/// number that is taken is refused.
pub(crate) fn insert_row<A: Alter>(
    transaction: &mut Transaction<'_, A>,
    row: &Row,
    prior: &Vec<u8>,
    tags: &String,
) -> Result<usize, Error>
    ensures { IsStep A.Store (MakesTables A.Store (with_cells (cells (values_of row.now prior.now.items (string_bytes tags.now))))) result transaction.old.conn transaction.new.conn }
{
    let values = values_of(row, prior.as_slice(), tags.as_str());
    transaction.execute(
        "INSERT INTO work2 (version, seq, id, name, class, kind, period, flex, delay, policy, wait, merger, network, flags, phase, attempt, backoff_n, runs, generation, enqueued_at, input, output, prior, tags, next_at, keep_for, finished_at) VALUES (?1, ?2, ?3, ?4, ?5, ?6, ?7, ?8, ?9, ?10, ?11, ?12, ?13, ?14, ?15, ?16, ?17, ?18, ?19, ?20, ?21, ?22, ?23, ?24, ?25, ?26, ?27)",
        &values,
    )
}

/// A number as a value that is bound.
fn number_of(number: &i64) -> ValueRef<'_>
    ensures { owned result ≡ Int number.now }
{
    ValueRef::Int(*number)
}
