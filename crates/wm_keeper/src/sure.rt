//! A keeper in memory that never fails.
ghost use Rattle.std.specs.Prelude.{◌≡◌, IfOk, OnOk, OnErr, IsOkUnless};

use crate::keeper::{KeepFault, Keeper};
use crate::row::{Change, Row};
use crate::rows::Rows;
use std::marker::Model;

/// A keeper that holds its rows in memory and never fails by itself. A contract sees it as the
/// list of its rows, in ascending number, and it always tells them.
#[derive(Drop)]
pub struct SureKeeper {
    rows: Rows,
}

impl Model for SureKeeper {
    ghost use Rattle.std.specs.Prelude.{List};
    ghost use Rattle.wm_keeper.specs.declared.row.Row.{Row};

    ghost Value = { List Row };

    ghost view = { λ keeper. keeper.rows.rows.items };
}

impl SureKeeper {
    ghost use Rattle.wm_keeper.specs.Keeper.{Ascends};

    /// A keeper that holds these rows, which stand in strictly ascending number.
    pub fn new(rows: Vec<Row>) -> SureKeeper
        requires { Ascends rows.items }
        ensures { result ≡ rows.items }
    {
        SureKeeper {
            rows: Rows::from_vec(rows),
        }
    }
}

impl Keeper for SureKeeper {
    ghost use Rattle.wm_keeper.specs.Keeper.{Ascends, changed};
    ghost use Rattle.wm_keeper.specs.Sure.{store_of};

    ghost store = { store_of };

    /// Copies of the rows held, whatever the name.
    fn load(&mut self, _name: &str) -> Result<Vec<Row>, KeepFault>
        ensures rows { IfOk result (λ rows. rows.items ≡ self.old) }
        ensures ascending { Ascends self.old }
        ensures kept { self.new ≡ self.old }
        ensures memory_only { IsOkUnless result KeepFault.Memory }
    {
        Ok(self.rows.copies()?)
    }

    /// Makes the changes one after another, all or none.
    fn commit(&mut self, changes: &[Change]) -> Result<(), KeepFault>
        ensures ok { OnOk result (self.new ≡ changed changes.now self.old) }
        ensures err { OnErr result (self.new ≡ self.old) }
        ensures memory_only { IsOkUnless result KeepFault.Memory }
    {
        self.rows.change(changes)?;
        Ok(())
    }
}
