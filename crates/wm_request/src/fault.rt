//! Why a request isn't built.
ghost use Rattle.std.specs.Prelude.{◌≡◌};

use std::alloc::AllocError;

/// Why a request isn't built.
#[derive(Clone, Copy, Debug, PartialEq, Eq)]
pub enum RequestFault {
    /// Its class is empty or has more than 200 bytes.
    NoClass,
    /// It has more than 32 tags.
    TooManyTags,
    /// Its initial delay, its period or its keeping time has more than 315,360,000,000 ms.
    DelayTooLong,
    /// Memory was refused.
    Memory,
}

impl From<AllocError> for RequestFault {
    ghost use Rattle.wm_request.specs.declared.fault.RequestFault.TheVariants.{Memory};

    ghost from_gives = { λ _ fault. fault ≡ Memory };

    fn from(_refused: AllocError) -> RequestFault {
        RequestFault::Memory
    }
}
