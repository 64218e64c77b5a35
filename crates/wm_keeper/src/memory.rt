//! A keeper in memory, which fails where it is told to.
ghost use Rattle.std.specs.Prelude.{◌≡◌, ◌==◌, ◌↔◌, if◌then◌else◌, IsTrue, IfOk, OnOk, OnErr, IsErrOf};
ghost use Rattle.std.specs.List.{list_any};

use crate::keeper::{KeepFault, Keeper};
use crate::row::{Change, Row};
use crate::rows::Rows;
use std::marker::Model;
use wm_collections::Text;
use wm_faults::FaultCount;

/// A keeper that holds its rows in memory and fails at the calls that it is told to. A contract
/// sees it as its rows, in ascending number, the name that it was last loaded with, the numbers of
/// the calls that fail, and its counts of calls and faults. It always tells them all.
#[derive(Drop)]
pub struct MemoryKeeper {
    rows: Rows,
    name: Option<Text>,
    failing: Vec<u32>,
    calls: u64,
    faults: FaultCount,
}

impl Model for MemoryKeeper {
    ghost use Rattle.std.specs.Prelude.{◌^◌, ◌<◌};
    ghost use Rattle.wm_keeper.specs.Memory.{MemoryState};

    ghost Value = { MemoryState };

    ghost view = { λ keeper. record { rows = keeper.rows.rows.items; name = keeper.name; failing = keeper.failing.items; calls = keeper.calls; faults = keeper.faults } };

    // The count of faults fits its type.
    ghost invariant = { λ keeper. keeper.faults < 2 ^ 64 };
}

impl MemoryKeeper {
    ghost use Rattle.wm_keeper.specs.Keeper.{Ascends, KeepCause};
    ghost use Rattle.wm_keeper.specs.Memory.{fails_next, CountsCall};

    /// A keeper that holds these rows, which stand in strictly ascending number. Its calls of `load`
    /// and `commit` are counted together, from 1, and those whose numbers are in `failing` fail.
    pub fn new(rows: Vec<Row>, failing: Vec<u32>) -> MemoryKeeper
        requires { Ascends rows.items }
        ensures { result ≡ record { rows = rows.items; name = None; failing = failing.items; calls = 0; faults = 0 } }
    {
        MemoryKeeper {
            rows: Rows::from_vec(rows),
            name: None,
            failing,
            calls: 0,
            faults: FaultCount::new(),
        }
    }

    /// The rows held.
    pub fn rows(&self) -> &[Row]
        ensures rows { result.now ≡ self.now.rows }
        ensures ascending { Ascends result.now }
    {
        self.rows.as_slice()
    }

    /// Gives the rows held up.
    pub fn into_rows(self) -> Vec<Row>
        ensures rows { result.items ≡ self.rows }
        ensures ascending { Ascends result.items }
    {
        self.rows.into_vec()
    }

    /// Counts a call, and a fault where it is one of those that fail.
    fn begin(&mut self) -> Result<(), KeepFault>
        ensures rows { self.new.rows ≡ self.old.rows }
        ensures name { self.new.name ≡ self.old.name }
        ensures ascending { Ascends self.old.rows }
        ensures counted { CountsCall self.old self.new }
        ensures cause { KeepCause result self.old.faults self.new.faults }
        ensures answer { result ≡ (if fails_next self.old then Err KeepFault.Failed else Ok tt) }
    {
        self.calls = self.calls.saturating_add(1);
        if is_listed(&self.failing, self.calls) {
            self.faults.raise();
            return Err(KeepFault::Failed);
        }
        Ok(())
    }
}

/// Whether the number of a call is among these.
fn is_listed(numbers: &[u32], call: u64) -> bool
    ensures { result ≡ list_any (λ number. number == call) numbers.now }
{
    numbers.iter().any(|number| u64::from(*number) == call)
}

impl Keeper for MemoryKeeper {
    ghost use Rattle.std.specs.Prelude.{Some};
    ghost use Rattle.wm_keeper.specs.Keeper.{Ascends, changed, KeepCause};
    ghost use Rattle.wm_keeper.specs.Memory.{fails_next, store_of, CountsCall};

    ghost store = { store_of };

    /// Copies of the rows held, whatever the name, which it notes.
    fn load(&mut self, name: &str) -> Result<Vec<Row>, KeepFault>
        ensures rows { IfOk result (λ rows. rows.items ≡ self.old.rows) }
        ensures ascending { Ascends self.old.rows }
        ensures kept { self.new.rows ≡ self.old.rows }
        ensures name { OnOk result (self.new.name ≡ Some name.now) }
        ensures same_name { OnErr result (self.new.name ≡ self.old.name) }
        ensures cause { KeepCause result self.old.faults self.new.faults }

        ensures failed { IsErrOf result KeepFault.Failed ↔ IsTrue (fails_next self.old) }
        ensures counted { CountsCall self.old self.new }
    {
        self.begin()?;
        let name = Text::from_str(self.rows.alloc(), name)?;
        let rows = self.rows.copies()?;
        self.name = Some(name);
        Ok(rows)
    }

    /// Makes the changes one after another, all or none.
    fn commit(&mut self, changes: &[Change]) -> Result<(), KeepFault>
        ensures ok { OnOk result (self.new.rows ≡ changed changes.now self.old.rows) }
        ensures err { OnErr result (self.new.rows ≡ self.old.rows) }
        ensures same_name { self.new.name ≡ self.old.name }
        ensures cause { KeepCause result self.old.faults self.new.faults }

        ensures failed { IsErrOf result KeepFault.Failed ↔ IsTrue (fails_next self.old) }
        ensures counted { CountsCall self.old self.new }
    {
        self.begin()?;
        self.rows.change(changes)?;
        Ok(())
    }
}
