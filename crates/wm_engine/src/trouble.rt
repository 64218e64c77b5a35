//! Why a call changed nothing, and why nothing was begun.
ghost use Rattle.std.specs.Prelude.{◌≡◌};

use std::alloc::AllocError;
use wm_keeper::KeepFault;
use wm_rows::RowFault;

/// Why a call of the engine, or of a table, changed nothing.
#[derive(Clone, Copy, Debug, PartialEq, Eq)]
pub enum Trouble {
    /// The keeper failed.
    KeeperFault,
    /// Memory was refused.
    Memory,
}

impl From<KeepFault> for Trouble {
    ghost use Rattle.wm_engine.specs.Trouble.{trouble_of};

    ghost from_gives = { λ fault trouble. trouble ≡ trouble_of fault };

    fn from(fault: KeepFault) -> Trouble {
        match fault {
            KeepFault::Failed => Trouble::KeeperFault,
            KeepFault::Memory => Trouble::Memory,
        }
    }
}

impl From<AllocError> for Trouble {
    ghost use Rattle.wm_engine.specs.declared.trouble.Trouble.TheVariants.{Memory};

    ghost from_gives = { λ _ trouble. trouble ≡ Memory };

    fn from(_refused: AllocError) -> Trouble {
        Trouble::Memory
    }
}

/// Why an engine, or a table, wasn't begun.
#[derive(Clone, Copy, Debug, PartialEq, Eq)]
pub enum BeginFault {
    /// The keeper failed.
    KeeperFault,
    /// The store has a row that can't be opened: its number, and whether the row is out of form.
    Bad { seq: i64, bad_row: bool },
    /// Memory was refused, before the commit.
    Memory,
    /// Memory was refused to the commit.
    CommitMemory,
}

impl BeginFault {
    ghost use Rattle.wm_engine.specs.Begins.{is_at_commit};

    /// Whether the opening was being committed: a crash may then leave what it would have left.
    pub fn is_at_commit(self) -> bool
        ensures { result ≡ is_at_commit self }
    {
        matches!(self, BeginFault::KeeperFault | BeginFault::CommitMemory)
    }
}

impl From<RowFault> for BeginFault {
    ghost use Rattle.wm_engine.specs.Begins.{begin_fault_of};

    ghost from_gives = { λ fault begin_fault. begin_fault ≡ begin_fault_of fault };

    fn from(fault: RowFault) -> BeginFault {
        match fault {
            RowFault::BadRow { seq } => BeginFault::Bad { seq, bad_row: true },
            RowFault::Unsound { seq } => BeginFault::Bad {
                seq,
                bad_row: false,
            },
            RowFault::Memory => BeginFault::Memory,
        }
    }
}

impl From<Trouble> for BeginFault {
    ghost use Rattle.wm_engine.specs.Begins.{begin_trouble_of};

    ghost from_gives = { λ trouble begin_fault. begin_fault ≡ begin_trouble_of trouble };

    fn from(trouble: Trouble) -> BeginFault {
        match trouble {
            Trouble::KeeperFault => BeginFault::KeeperFault,
            Trouble::Memory => BeginFault::CommitMemory,
        }
    }
}
