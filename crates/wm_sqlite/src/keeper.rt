//! The keeper over a SQLite connection.
ghost use Rattle.std.specs.Prelude.{◌≡◌, IfOk};
ghost use Rattle.wm_sqlite.specs.Told.{store_of};

use crate::changes::change_rows;
use crate::look::{read_rows, standing_of};
use crate::refusal::{Refusal, counted};
use crate::standing::Standing;
use sqlite::{Alter, Connection};
use std::alloc::Global;
use std::marker::Model;
use wm_faults::FaultCount;
use wm_keeper::{Change, KeepFault, Keeper, Row};

/// A keeper that holds its rows in the tables `work` and `work2` of a SQLite store, which are made
/// where they are missing. It writes into `work2` alone: `work` has the rows of stores that were
/// written before there was `work2`. A contract sees the connection, what the keeper knows of the
/// tables and its count of faults.
///
/// It tells its rows while the connection is open, and what a crash now may leave as long as the disk
/// returned what was written, if the database had nothing besides the tables when it was adopted, no
/// number stood in both of them, and no transaction was open. Otherwise it works, and tells its count
/// alone. It is lost once the connection is shut.
///
/// A fault is a statement or a column that is refused for another cause than memory, or a table of
/// one of the two names of another form. It is counted once a call, and answered as `Failed`.
#[derive(Drop)]
pub struct SqliteKeeper<A: Alter> {
    connection: Connection<A>,
    standing: Standing,
    /// That of the rows that the table showed; none where it hasn't been read yet.
    alloc: Option<Global>,
    faults: FaultCount,
}

impl<A: Alter> Model for SqliteKeeper<A> {
    ghost use Rattle.wm_sqlite.specs.States.{SqliteState, sqlite_state_code};
    ghost use Rattle.wm_sqlite.specs.Told.{Knows};

    ghost Value = { SqliteState A };

    ghost coded = { sqlite_state_code A.code };

    ghost view = { λ keeper. record {
      connection = keeper.connection;
      standing = keeper.standing;
      faults = keeper.faults;
    } };

    ghost invariant = { λ keeper. Knows A.Store keeper.standing keeper.connection };
}

impl<A: Alter> SqliteKeeper<A> {
    ghost use Rattle.std.specs.Prelude.{IsTrue, OnOk, OnErr};
    ghost use Rattle.wm_keeper.specs.Keeper.{AreOfDifferentNumbers};
    ghost use Rattle.wm_keeper.specs.Store.{IsCommitted, IsLoaded, IsNotCommitted, IsSettled, IsStoreKept, KeepsTelling};
    ghost use Rattle.wm_sqlite.specs.Told.{store_of, IsLookedAt, IsSeenAs};
    ghost use Rattle.sqlite.specs.Held.{state};

    /// A keeper of the rows in the store of this connection. Where that is open, nothing is pending:
    /// a crash leaves just the rows that the keeper tells.
    pub fn adopt(connection: Connection<A>) -> SqliteKeeper<A>
        ensures connection { result.connection ≡ connection }
        ensures faults { result.faults ≡ 0 }
        ensures seen { IsSeenAs result.standing (state A.Store connection) }
        ensures settled { IsTrue (state A.Store connection).is_open → IsSettled (store_of A.Store result) }
    {
        let standing = standing_of(&connection);
        SqliteKeeper {
            connection,
            standing,
            alloc: None,
            faults: FaultCount::new(),
        }
    }

    /// Gives the connection back. It takes no memory.
    pub fn into_connection(self) -> Connection<A>
        ensures { result ≡ self.connection }
    {
        self.connection
    }

    /// The rows, which are read from the tables. Whatever is answered, they stay.
    fn load_rows(&mut self) -> Result<Vec<Row>, Refusal>
        ensures faults { self.new.faults ≡ self.old.faults }
        ensures kept { IsStoreKept (store_of A.Store self.old) (store_of A.Store self.new) }
        ensures telling { KeepsTelling (store_of A.Store self.old) (store_of A.Store self.new) }
        ensures rows { IfOk result (λ rows. IsLoaded rows.items (store_of A.Store self.old) (store_of A.Store self.new)) }
        ensures looked { OnOk result (IsLookedAt self.new.standing) }
    {
        let rows = read_rows(&mut self.connection, &mut self.standing)?;
        self.alloc = Some(*rows.allocator());
        Ok(rows)
    }

    /// The allocator of the rows, which are read where they weren't, or where nothing else is asked
    /// of the store.
    fn allocator(&mut self, changes: &[Change]) -> Result<Global, Refusal>
        ensures faults { self.new.faults ≡ self.old.faults }
        ensures kept { IsStoreKept (store_of A.Store self.old) (store_of A.Store self.new) }
        ensures telling { KeepsTelling (store_of A.Store self.old) (store_of A.Store self.new) }
        ensures looked { OnOk result (IsLookedAt self.new.standing) }
    {
        match self.alloc {
            Some(alloc) if self.standing.is_looked_at() && !changes.is_empty() => Ok(alloc),
            _ => {
                let rows = self.load_rows()?;
                Ok(*rows.allocator())
            }
        }
    }

    /// Makes the changes of the tables.
    fn change_table(&mut self, changes: &[Change]) -> Result<(), Refusal>
        requires { AreOfDifferentNumbers changes.now }
        ensures faults { self.new.faults ≡ self.old.faults }
        ensures telling { KeepsTelling (store_of A.Store self.old) (store_of A.Store self.new) }
        ensures ok { OnOk result (IsCommitted changes.now (store_of A.Store self.old) (store_of A.Store self.new)) }
        ensures err { OnErr result (IsNotCommitted changes.now (store_of A.Store self.old) (store_of A.Store self.new)) }
    {
        let alloc = self.allocator(changes)?;
        if !self.connection.is_autocommit() {
            return Err(Refusal::Store);
        }
        change_rows(&mut self.connection, alloc, self.standing.spread(), changes)?;
        Ok(())
    }
}

impl<A: Alter> Keeper for SqliteKeeper<A> {
    ghost use Rattle.wm_sqlite.specs.Told.{store_of};

    ghost store = { store_of A.Store };

    /// The rows, whatever the name.
    fn load(&mut self, _name: &str) -> Result<Vec<Row>, KeepFault> {
        let loaded = self.load_rows();
        counted(&mut self.faults, loaded)
    }

    /// Makes the changes in one transaction.
    fn commit(&mut self, changes: &[Change]) -> Result<(), KeepFault> {
        let changed = self.change_table(changes);
        counted(&mut self.faults, changed)
    }
}
