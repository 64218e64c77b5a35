//! Why inputs don't become one.
use std::alloc::AllocError;
use wm_collections::Text;

/// Why inputs don't become one.
#[derive(Debug, Drop)]
pub enum MergeFault {
    /// There are values of two element types under the key.
    Conflict { key: Text },
    /// What they become has more bytes than Data may have.
    TooLarge { size: u64 },
    /// Memory was refused.
    Memory,
}

impl From<AllocError> for MergeFault {
    ghost use Rattle.std.specs.Prelude.{◌≡◌};
    ghost use Rattle.wm_merge.specs.declared.fault.MergeFault.TheVariants.{Memory};

    ghost from_gives = { λ _ fault. fault ≡ Memory };

    fn from(_refused: AllocError) -> MergeFault {
        MergeFault::Memory
    }
}
