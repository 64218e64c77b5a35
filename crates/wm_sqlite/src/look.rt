//! What a keeper knows of the tables: they are looked at, made and read.
ghost use Rattle.sqlite.specs.Held.{state};
ghost use Rattle.sqlite.specs.State.{HasCleanDisk};
ghost use Rattle.std.specs.Prelude.{◌≡◌, ◌≢◌, false, IfOk, IfSome, IsPermutation, IsTrue, OnOk};
ghost use Rattle.wm_keeper.specs.Keeper.{Ascends};
ghost use Rattle.wm_sqlite.specs.Held.{tables_in, Differ};
ghost use Rattle.wm_sqlite.specs.Resting.{WasOpen};
ghost use Rattle.wm_sqlite.specs.Standing.{ShowsTables};
ghost use Rattle.wm_sqlite.specs.Told.{rows_told, AreRead, AreShown, AreThere, IsLookedAt, IsMade, IsSeenAs, IsUnmade, Knows, StillTells};

use crate::form::{has_others, is_blank, is_of_both, is_of_work};
use crate::refusal::{Refusal, refused};
use crate::standing::{Spread, Standing};
use crate::table::{Shown, make_tables, read_tables};
use sqlite::{Alter, Connection, Error};
use std::alloc::AllocError;
use wm_columns::rows_of;
use wm_keeper::{Row, do_ascend};

/// What is known of the tables, from the schema alone.
pub(crate) fn standing_of<A: Alter>(connection: &Connection<A>) -> Standing
    ensures knows { Knows A.Store result connection.now }
    ensures seen { IsSeenAs result (state A.Store connection.now) }
{
    if !connection.is_autocommit() {
        return Standing::Unknown;
    }
    let schema = connection.schema();
    if is_blank(schema) {
        Standing::Missing
    } else if is_of_work(schema) {
        Standing::First
    } else if is_of_both(schema) {
        Standing::Found
    } else {
        Standing::Unknown
    }
}

/// The rows of both tables by number, of two under one number that of `work` first. A table is made
/// where it isn't known to be there. Where two rows have one number, nothing is known from then on.
pub(crate) fn read_rows<A: Alter>(
    connection: &mut Connection<A>,
    standing: &mut Standing,
) -> Result<Vec<Row>, Refusal>
    requires knows { Knows A.Store standing.old connection.old }
    ensures still { StillTells A.Store standing.old standing.new connection.old connection.new }
    ensures rows { HasCleanDisk (state A.Store connection.new) → IfOk result (λ rows.
        IfSome (rows_told standing.old (state A.Store connection.old)) (λ held. rows.items ≡ held)) }
    ensures looked { OnOk result (IsLookedAt standing.new) }
{
    let shown = show_rows(connection, standing)?;
    let rows = shown_rows(&shown)?;
    *standing = standing.looked_at(do_ascend(rows.as_slice()), shown.spread());
    Ok(rows)
}

impl Shown {
    ghost use Rattle.std.specs.Prelude.{[]};
    ghost use Rattle.wm_sqlite.specs.declared.standing.Spread.TheVariants.{Second};

    /// Where the rows stand.
    fn spread(&self) -> Spread
        ensures { result ≡ Second → self.now.first.items ≡ [] }
    {
        if self.first.is_empty() {
            Spread::Second
        } else {
            Spread::Both
        }
    }
}

/// The rows that are shown, by number, of two under one number that of `work` first.
fn shown_rows(shown: &Shown) -> Result<Vec<Row>, Refusal>
    ensures { IfOk result (λ rows. AreRead shown.now.first.items shown.now.second.items rows.items) }
{
    let rows = rows_of(
        *shown.second.allocator(),
        shown.first.as_slice(),
        shown.second.as_slice(),
    )?;
    Ok(by_number(rows)?)
}

/// The rows by number, those of one number as they stood.
fn by_number(mut rows: Vec<Row>) -> Result<Vec<Row>, Error>
    ensures rows { IfOk result (λ sorted. IsPermutation rows.items sorted.items) }
    ensures ascending { IfOk result (λ sorted. Differ rows.items → Ascends sorted.items) }
{
    if do_ascend(rows.as_slice()) {
        return Ok(rows);
    }
    sort_by_number(&mut rows)?;
    Ok(rows)
}

/// Sorts rows by number, and leaves those of one number as they stood.
fn sort_by_number(rows: &mut Vec<Row>) -> Result<(), AllocError>
    ensures rows { IsPermutation rows.old.items rows.new.items }
    ensures ascending { OnOk result (Differ rows.old.items → Ascends rows.new.items) }
{
    rows.sort_by_key(|row| row.seq)
}

/// The rows as the tables show them. A table is made where it isn't known to be there.
fn show_rows<A: Alter>(
    connection: &mut Connection<A>,
    standing: &mut Standing,
) -> Result<Shown, Refusal>
    requires knows { Knows A.Store standing.old connection.old }
    ensures still { StillTells A.Store standing.old standing.new connection.old connection.new }
    ensures told { HasCleanDisk (state A.Store connection.new) → IfOk result (λ shown.
        IfSome (rows_told standing.old (state A.Store connection.old)) (λ held. AreShown held shown.first.items shown.second.items)) }
    ensures shown { HasCleanDisk (state A.Store connection.new) → IfOk result (λ shown.
        standing.new ≢ Standing.Unknown → IsTrue (state A.Store connection.new).is_open
        → ShowsTables (tables_in (state A.Store connection.new).now.trees) shown.first.items shown.second.items) }
    ensures made { OnOk result (IsMade standing.new) }
{
    if !connection.is_autocommit() {
        return Err(Refusal::Store);
    }
    make_missing(connection, standing)?;
    refused(read_tables(connection))
}

/// Makes the tables that aren't known to be there. No transaction is open.
fn make_missing<A: Alter>(
    connection: &mut Connection<A>,
    standing: &mut Standing,
) -> Result<(), Refusal>
    requires mode { connection.old.in_transaction ≡ false }
    requires knows { Knows A.Store standing.old connection.old }
    ensures mode { connection.new.in_transaction ≡ false }
    ensures still { StillTells A.Store standing.old standing.new connection.old connection.new }
    ensures made { OnOk result (IsMade standing.new) }
    ensures there { HasCleanDisk (state A.Store connection.new) → OnOk result (
        IfSome (rows_told standing.old (state A.Store connection.old)) (AreThere A.Store connection.new)) }
{
    match *standing {
        Standing::Found => Ok(()),
        Standing::Read(_) => Ok(()),
        Standing::Missing => complete(connection, standing),
        Standing::First => complete(connection, standing),
        Standing::Unknown => make_beside(connection),
    }
}

/// Makes both tables, where one or both are known to be missing. No transaction is open.
fn complete<A: Alter>(
    connection: &mut Connection<A>,
    standing: &mut Standing,
) -> Result<(), Refusal>
    requires mode { connection.old.in_transaction ≡ false }
    requires knows { Knows A.Store standing.old connection.old }
    requires unmade { IsUnmade standing.old }
    ensures mode { connection.new.in_transaction ≡ false }
    ensures still { StillTells A.Store standing.old standing.new connection.old connection.new }
    ensures made { OnOk result (standing.new ≡ Standing.Found) }
    ensures there { HasCleanDisk (state A.Store connection.new) → OnOk result (
        IfSome (rows_told standing.old (state A.Store connection.old)) (AreThere A.Store connection.new)) }
{
    make_tables(connection)?;
    *standing = Standing::Found;
    Ok(())
}

/// Makes the tables where there are none of their names. One of another form is refused, and then
/// none is made.
fn make_beside<A: Alter>(connection: &mut Connection<A>) -> Result<(), Refusal>
    requires { connection.old.in_transaction ≡ false }
    ensures mode { connection.new.in_transaction ≡ false }
    ensures was_open { WasOpen A.Store connection.old connection.new }
{
    if has_others(connection.schema()) {
        return Err(Refusal::Store);
    }
    make_tables(connection)?;
    Ok(())
}
