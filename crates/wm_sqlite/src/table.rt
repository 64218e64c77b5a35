//! The tables of the rows as a whole: they are made and read, each in a transaction of its own.
ghost use Rattle.sqlite.specs.Held.{state};
ghost use Rattle.sqlite.specs.State.{HasCleanDisk, Survives};
ghost use Rattle.sqlite_trees.specs.Tree.{Trees};
ghost use Rattle.std.specs.Prelude.{◌≡◌, ◌⊎◌, [], false, IsTrue, IfOk, OnOk, OnErr};
ghost use Rattle.wm_sqlite.specs.Held.{tables_in};
ghost use Rattle.wm_sqlite.specs.Resting.{IsIncomplete, Rests, RestsStill, WasOpen};
ghost use Rattle.wm_sqlite.specs.Standing.{ShowsTables, StandsWith};
ghost use Rattle.wm_sqlite.specs.Steps.{IsStep, MakesBoth, MakesTables};
ghost use Rattle.wm_sqlite.specs.Table.{both_schema, no_schema, work_schema};

use crate::statements::{make_first, make_second, select_first, select_second};
use sqlite::{Alter, Connection, Error, Row as ShownRow, Transaction};

/// The rows of the two tables as they are shown, those of `work` as rows of `work2`.
#[derive(Drop)]
pub(crate) struct Shown {
    pub(crate) first: Vec<ShownRow>,
    pub(crate) second: Vec<ShownRow>,
}

/// Makes the tables where there are none of their names, both or none. No transaction is open.
pub(crate) fn make_tables<A: Alter>(connection: &mut Connection<A>) -> Result<(), Error>
    requires { connection.old.in_transaction ≡ false }
    ensures mode { connection.new.in_transaction ≡ false }
    ensures clean { HasCleanDisk (state A.Store connection.new)
        → HasCleanDisk (state A.Store connection.old) }
    ensures was_open { WasOpen A.Store connection.old connection.new }
    ensures opened { HasCleanDisk (state A.Store connection.new)
        → OnOk result (IsTrue (state A.Store connection.old).is_open) }
    ensures made { HasCleanDisk (state A.Store connection.new) → OnOk result (Rests A.Store no_schema connection.old
        → Rests A.Store both_schema connection.new
        × (tables_in (state A.Store connection.new).now.trees ≡ ([], []))) }
    ensures completed { HasCleanDisk (state A.Store connection.new) → OnOk result (Rests A.Store work_schema connection.old
        → Rests A.Store both_schema connection.new
        × (tables_in (state A.Store connection.new).now.trees ≡ ((state A.Store connection.old).now.trees 0, []))) }
    ensures unmade { HasCleanDisk (state A.Store connection.new)
        → IsTrue (state A.Store connection.new).is_open
        → OnErr result ((schema : _) → IsIncomplete schema → RestsStill A.Store schema connection.old connection.new) }
    ensures crash { HasCleanDisk (state A.Store connection.new) → (left : Trees)
        → (state A.Store connection.new).may_leave left
        → (state A.Store connection.old).may_leave left
        ⊎ (IsTrue (state A.Store connection.old).is_open × (Rests A.Store work_schema connection.old
        → left 0 ≡ (state A.Store connection.old).now.trees 0)) }
{
    let mut transaction = connection.transaction();
    make_both(&mut transaction)?;
    transaction.commit()
}

/// Makes the tables where there are none of their names.
fn make_both<A: Alter>(transaction: &mut Transaction<'_, A>) -> Result<usize, Error>
    ensures step { IsStep A.Store (MakesBoth A.Store) result transaction.old.conn transaction.new.conn }
    ensures opened { HasCleanDisk (state A.Store transaction.new.conn.now)
        → OnOk result (IsTrue (state A.Store transaction.old.conn.now).is_open) }
{
    make_first(transaction)?;
    make_second(transaction)
}

/// The rows as the tables show them, each in ascending number. No transaction is open.
pub(crate) fn read_tables<A: Alter>(connection: &mut Connection<A>) -> Result<Shown, Error>
    requires { connection.old.in_transaction ≡ false }
    ensures mode { connection.new.in_transaction ≡ false }
    ensures was_open { WasOpen A.Store connection.old connection.new }
    ensures rows { HasCleanDisk (state A.Store connection.new) → IfOk result (λ shown.
        Rests A.Store both_schema connection.old
        → ShowsTables (tables_in (state A.Store connection.old).now.trees) shown.first.items shown.second.items) }
    ensures kept { HasCleanDisk (state A.Store connection.new)
        → IsTrue (state A.Store connection.new).is_open
        → RestsStill A.Store both_schema connection.old connection.new }
    ensures survives { Survives (state A.Store connection.old) (state A.Store connection.new) (λ _. ⊥) }
{
    let mut transaction = connection.transaction();
    show_both(&mut transaction)
}

/// The rows as the tables show them, each in ascending number.
fn show_both<A: Alter>(transaction: &mut Transaction<'_, A>) -> Result<Shown, Error>
    ensures step { IsStep A.Store (MakesTables A.Store (λ tables. tables)) result transaction.old.conn transaction.new.conn }
    ensures rows { HasCleanDisk (state A.Store transaction.new.conn.now)
        → IfOk result (λ shown. (base : _) (tables : _) → StandsWith A.Store base tables transaction.old.conn.now
        → ShowsTables tables shown.first.items shown.second.items) }
{
    let first = select_first(transaction)?;
    let second = select_second(transaction)?;
    Ok(Shown { first, second })
}
