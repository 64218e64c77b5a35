//! Why works aren't a batch.
ghost use Rattle.std.specs.Prelude.{◌≡◌};

use std::alloc::AllocError;
use uuid::Uuid;

/// Why works aren't a batch.
#[derive(Clone, Copy, Debug, PartialEq, Eq)]
pub enum ChainFault {
    /// Two works have the id, or a work names it twice among those that it is after.
    IdTwice { id: Uuid },
    /// The work of this id is periodic, and it is after another one, or another one is after it.
    PeriodicInChain { id: Uuid },
    /// Memory was refused.
    Memory,
}

impl From<AllocError> for ChainFault {
    ghost use Rattle.wm_chain.specs.declared.fault.ChainFault.TheVariants.{Memory};

    ghost from_gives = { λ _ fault. fault ≡ Memory };

    fn from(_refused: AllocError) -> ChainFault {
        ChainFault::Memory
    }
}
