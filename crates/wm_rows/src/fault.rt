//! Why rows aren't those of a store.
ghost use Rattle.std.specs.Prelude.{◌≡◌};

use std::alloc::AllocError;

/// Why rows aren't those of a store.
#[derive(Clone, Copy, Debug, PartialEq, Eq)]
pub enum RowFault {
    /// The row of this number isn't in the grammar.
    BadRow { seq: i64 },
    /// The row of this number is in the grammar, and isn't sound after the rows before it.
    Unsound { seq: i64 },
    /// Memory was refused.
    Memory,
}

impl From<AllocError> for RowFault {
    ghost use Rattle.wm_rows.specs.declared.fault.RowFault.TheVariants.{Memory};

    ghost from_gives = { λ _ fault. fault ≡ Memory };

    fn from(_refused: AllocError) -> RowFault {
        RowFault::Memory
    }
}
