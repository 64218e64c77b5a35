//! What a keeper makes of tables that others wrote.
use crate::rows::{change_one, loaded, put_and_remove};
use sqlite::{Connection, MemStore};
use std::alloc::{AllocError, Global};
use std::test::Fail;
use wm_keeper::{KeepFault, Keeper, Row};
use wm_sqlite::SqliteKeeper;

/// A keeper over a store in memory in which these statements were run.
fn keeper_after(alloc: Global, statements: &str) -> Result<SqliteKeeper<MemStore>, Fail> {
    let mut connection = Connection::open_in_memory(alloc)?;
    connection.execute_batch(statements)?;
    Ok(SqliteKeeper::adopt(connection))
}

/// The columns that both tables have.
const COLUMNS: &str =
    "version INTEGER NOT NULL, seq INTEGER PRIMARY KEY, id BLOB NOT NULL, name TEXT, class TEXT NOT NULL, kind INTEGER NOT NULL, period INTEGER NOT NULL, flex INTEGER NOT NULL, delay INTEGER NOT NULL, policy INTEGER NOT NULL, wait INTEGER NOT NULL, merger INTEGER NOT NULL, network INTEGER NOT NULL, flags INTEGER NOT NULL, phase INTEGER NOT NULL, attempt INTEGER NOT NULL, backoff_n INTEGER NOT NULL, runs INTEGER NOT NULL, generation INTEGER NOT NULL, enqueued_at INTEGER NOT NULL, input TEXT NOT NULL, output TEXT NOT NULL, prior BLOB NOT NULL, tags TEXT NOT NULL";

/// The columns that `work2` has after them.
const MOMENTS: &str =
    "next_at INTEGER NOT NULL, keep_for INTEGER NOT NULL, finished_at INTEGER NOT NULL";

/// A statement that inserts a row into `work` with this version, number, id, `prior` and `tags`.
fn insert(alloc: Global, values: (i64, i64, &str, &str, &str)) -> Result<String, AllocError> {
    let (version, seq, id, prior, tags) = values;
    format!(in alloc;
        "INSERT INTO work VALUES ({version}, {seq}, x'{id}', NULL, '', 0, 0, 0, 0, 0, 0, 0, 0, 0, 0, 0, 0, 0, 0, 0, '{{}}', '{{}}', x'{prior}', '{tags}');"
    )
}

/// The numbers of a row, its version, and how many prerequisites and tags it has.
fn counts_of(alloc: Global, rows: &[Row]) -> Result<Vec<(i64, i64, usize, usize)>, AllocError> {
    let mut counts = Vec::new(alloc);
    for row in rows {
        counts.push((row.seq, row.version, row.prior.len(), row.tags.len()))?;
    }
    Ok(counts)
}

/// Statements that make the table, another one, an index, and rows from 5 to 1, whose ids rise.
fn five_rows(alloc: Global) -> Result<String, AllocError> {
    let mut statements = format!(in alloc;
        "CREATE TABLE work({COLUMNS}) STRICT; CREATE TABLE other(a); CREATE INDEX phases ON work(phase);"
    )?;
    let rows = [
        (1, 5, "01", "", "[1]"),
        (1, 4, "02", "", "{}"),
        (1, 3, "03", "0000000000000001", "["),
        (1, 2, "04", "00000000000001", "[]"),
        (
            1,
            1,
            "05",
            "0000000000000102fffffffffffffffe",
            " [ \"a\", \"\\u0062\" ] ",
        ),
    ];
    for row in rows {
        statements.push_str(insert(alloc, row)?.as_str())?;
    }
    Ok(statements)
}

#[test]
fn a_row_whose_lists_cannot_be_read_has_version_0(rt: HostRuntime) -> Result<(), Fail> {
    let alloc = rt.alloc();
    let mut keeper = keeper_after(alloc, five_rows(alloc)?.as_str())?;
    let rows = keeper.load("any name")?;
    let counts = counts_of(alloc, rows.as_slice())?;
    let expected = [
        (1, 1, 2, 2),
        (2, 0, 0, 0),
        (3, 0, 0, 0),
        (4, 0, 0, 0),
        (5, 0, 0, 0),
    ];
    assert_eq!(rt; counts.as_slice(), expected.as_slice());
    let prior = rows.as_slice().first().map(|row| row.prior.as_slice());
    assert_eq!(rt; prior, Some([258, -2].as_slice()));
    Ok(())
}

/// How a keeper fails to load what these statements made, if it does.
fn fault_after(alloc: Global, statements: &str) -> Result<Option<KeepFault>, Fail> {
    let mut keeper = keeper_after(alloc, statements)?;
    Ok(keeper.load("any name").err())
}

#[test]
fn a_table_of_another_form_is_a_fault(rt: HostRuntime) -> Result<(), Fail> {
    let alloc = rt.alloc();
    let columns = [", more INTEGER) STRICT", ", CHECK (seq > 0)) STRICT", ")"];
    for end in columns {
        let table = format!(in alloc; "CREATE TABLE work({COLUMNS}{end}")?;
        assert_eq!(rt;
            fault_after(alloc, table.as_str())?,
            Some(KeepFault::Failed),
            "{end}"
        );
    }
    for name in ["work", "work2"] {
        let view = format!(in alloc; "CREATE VIEW {name} AS SELECT 1")?;
        assert_eq!(rt;
            fault_after(alloc, view.as_str())?,
            Some(KeepFault::Failed),
            "{name}"
        );
    }
    Ok(())
}

#[test]
fn a_second_table_of_another_form_is_a_fault(rt: HostRuntime) -> Result<(), Fail> {
    let alloc = rt.alloc();
    let columns = [") STRICT", ", next_at INTEGER NOT NULL) STRICT"];
    for end in columns {
        let table = format!(in alloc; "CREATE TABLE work2({COLUMNS}{end}")?;
        assert_eq!(rt;
            fault_after(alloc, table.as_str())?,
            Some(KeepFault::Failed),
            "{end}"
        );
    }
    Ok(())
}

/// Statements that make both tables: `work` has rows 1 and 3, and `work2` has these with the moment 7.
fn both_tables(alloc: Global, numbers: &[i64]) -> Result<String, AllocError> {
    let mut statements = format!(in alloc;
        "CREATE TABLE work({COLUMNS}) STRICT; CREATE TABLE work2({COLUMNS}, {MOMENTS}) STRICT;"
    )?;
    for seq in [1, 3] {
        statements.push_str(insert(alloc, (1, seq, "01", "", "[]"))?.as_str())?;
    }
    for seq in numbers {
        let row = format!(in alloc;
            "INSERT INTO work2 VALUES (2, {seq}, x'01', NULL, '', 0, 0, 0, 0, 0, 0, 0, 0, 0, 0, 0, 0, 0, 0, 0, '{{}}', '{{}}', x'', '[]', 7, 8, 9);"
        )?;
        statements.push_str(row.as_str())?;
    }
    Ok(statements)
}

/// The number of a row and the three columns that `work` doesn't have.
fn moments_of(alloc: Global, rows: &[Row]) -> Result<Vec<(i64, i64, i64, i64)>, AllocError> {
    let mut moments = Vec::new(alloc);
    for row in rows {
        moments.push((row.seq, row.next_at, row.keep_for, row.finished_at))?;
    }
    Ok(moments)
}

#[test]
fn the_rows_of_both_tables_are_loaded_by_number(rt: HostRuntime) -> Result<(), Fail> {
    let alloc = rt.alloc();
    let mut keeper = keeper_after(alloc, both_tables(alloc, &[2, 4])?.as_str())?;
    let rows = keeper.load("any name")?;
    let moments = moments_of(alloc, rows.as_slice())?;
    let expected = [(1, -1, 0, 0), (2, 7, 8, 9), (3, -1, 0, 0), (4, 7, 8, 9)];
    assert_eq!(rt; moments.as_slice(), expected.as_slice());
    Ok(())
}

#[test]
fn of_two_rows_of_one_number_that_of_work_is_first(rt: HostRuntime) -> Result<(), Fail> {
    let alloc = rt.alloc();
    let mut keeper = keeper_after(alloc, both_tables(alloc, &[0, 3])?.as_str())?;
    let rows = keeper.load("any name")?;
    let moments = moments_of(alloc, rows.as_slice())?;
    let expected = [(0, 7, 8, 9), (1, -1, 0, 0), (3, -1, 0, 0), (3, 7, 8, 9)];
    assert_eq!(rt; moments.as_slice(), expected.as_slice());
    Ok(())
}

/// How many rows each table has, of a keeper that is given up.
fn counts_in(keeper: SqliteKeeper<MemStore>) -> Result<(i64, i64), Fail> {
    let mut connection = keeper.into_connection();
    let first = connection.query_row("SELECT count(*) FROM work", &[])?;
    let second = connection.query_row("SELECT count(*) FROM work2", &[])?;
    Ok((first.get(0)?, second.get(0)?))
}

#[test]
fn a_changed_row_moves_to_the_second_table(rt: HostRuntime) -> Result<(), Fail> {
    let alloc = rt.alloc();
    let mut keeper = keeper_after(alloc, both_tables(alloc, &[])?.as_str())?;
    change_one(alloc, &mut keeper, 1, Some(5))?;
    let rows = loaded(alloc, &mut keeper, "any name")?;
    assert_eq!(rt; rows.as_slice(), [(1, 5), (3, 0)].as_slice());
    assert_eq!(rt; counts_in(keeper)?, (1, 1));
    Ok(())
}

#[test]
fn a_store_of_the_first_table_alone_gets_the_second(rt: HostRuntime) -> Result<(), Fail> {
    let alloc = rt.alloc();
    let table = format!(in alloc;
        "CREATE TABLE work({COLUMNS}) STRICT; {}",
        insert(alloc, (1, 6, "01", "", "[]"))?
    )?;
    let mut keeper = keeper_after(alloc, table.as_str())?;
    let rows = loaded(alloc, &mut keeper, "any name")?;
    assert_eq!(rt; rows.as_slice(), [(6, 0)].as_slice());
    change_one(alloc, &mut keeper, 6, None)?;
    assert_eq!(rt; counts_in(keeper)?, (0, 0));
    Ok(())
}

/// `work2`, with an index by which no two of its rows have one attempt.
fn table_of_different_attempts(alloc: Global) -> Result<String, AllocError> {
    format!(in alloc;
        "CREATE TABLE work2({COLUMNS}, {MOMENTS}) STRICT; CREATE UNIQUE INDEX attempts ON work2(attempt);"
    )
}

#[test]
fn a_refused_commit_changes_nothing(rt: HostRuntime) -> Result<(), Fail> {
    let alloc = rt.alloc();
    let mut keeper = keeper_after(alloc, table_of_different_attempts(alloc)?.as_str())?;
    change_one(alloc, &mut keeper, 5, Some(0))?;
    change_one(alloc, &mut keeper, 9, Some(2))?;
    assert_eq!(rt; put_and_remove(alloc, &mut keeper), Err(KeepFault::Failed));
    let rows = loaded(alloc, &mut keeper, "any name")?;
    assert_eq!(rt; rows.as_slice(), [(5, 0), (9, 2)].as_slice());
    Ok(())
}
