//! The trait of a keeper, and why it didn't do what it was asked.
ghost use Rattle.std.specs.Prelude.{◌≡◌, Some, IfOk, IfSome, OnOk, OnErr};

use crate::row::{Change, Row};
use std::alloc::AllocError;

/// Why a keeper didn't do what it was asked.
#[derive(Clone, Copy, Debug, PartialEq, Eq)]
pub enum KeepFault {
    /// The store failed.
    Failed,
    /// Memory was refused.
    Memory,
}

impl From<AllocError> for KeepFault {
    ghost use Rattle.std.specs.Prelude.{◌≡◌};
    ghost use Rattle.wm_keeper.specs.declared.keeper.KeepFault.TheVariants.{Memory};

    ghost from_gives = { λ _ fault. fault ≡ Memory };

    fn from(_error: AllocError) -> KeepFault {
        KeepFault::Memory
    }
}

/// A keeper of rows, each under a number of its own. What a call makes of what it shows is said in
/// `specs/Store.antt`.
pub trait Keeper {
    ghost use Rattle.wm_keeper.specs.Keeper.{Ascends, AreOfDifferentNumbers, KeepCause};
    ghost use Rattle.wm_keeper.specs.Store.{Store, IsAtMost, IsCommitted, IsLoaded, IsNotCommitted, IsStoreKept, KeepsTelling};

    /// What it shows: the rows that it holds, what a crash now may leave, the name that it was last
    /// loaded with, its count of faults, and whether it is lost. Rows that were told are told after
    /// each call, unless it is lost then.
    ghost store: { Self → Store };

    /// The rows held, in ascending number: those of the store of this name, none where it is new.
    /// A keeper may be lost in this very call, and then nothing is said of what it answers.
    fn load(&mut self, name: &str) -> Result<Vec<Row>, KeepFault>
        ensures rows { IfOk result (λ rows. IsLoaded rows.items (store self.old) (store self.new)) }
        ensures ascending { IfSome (store self.old).rows Ascends }
        ensures kept { IsStoreKept (store self.old) (store self.new) }
        ensures name { OnOk result (IsAtMost (Some name.now) (store self.new).name) }
        ensures same_name { OnErr result (IsAtMost (store self.old).name (store self.new).name) }
        ensures telling { KeepsTelling (store self.old) (store self.new) }
        ensures cause { KeepCause result (store self.old).faults (store self.new).faults };

    /// Makes the changes, all or none. No number occurs in two of them.
    fn commit(&mut self, changes: &[Change]) -> Result<(), KeepFault>
        requires { AreOfDifferentNumbers changes.now }
        ensures ok { OnOk result (IsCommitted changes.now (store self.old) (store self.new)) }
        ensures err { OnErr result (IsNotCommitted changes.now (store self.old) (store self.new)) }
        ensures same_name { IsAtMost (store self.old).name (store self.new).name }
        ensures telling { KeepsTelling (store self.old) (store self.new) }
        ensures cause { KeepCause result (store self.old).faults (store self.new).faults };
}
