//! Why there is no Data.
use std::alloc::AllocError;
use wm_collections::Text;

/// Why there is no [`Data`](crate::Data).
#[derive(Debug, Drop)]
pub enum DataFault {
    /// A key is empty.
    EmptyKey,
    /// What stands in JSON under the key isn't a value of one of the types. The key is empty where
    /// the JSON is no object.
    BadData { key: Text },
    /// The entries have more bytes than Data may have.
    TooLarge { size: u64 },
    /// Memory was refused.
    Memory,
}

impl From<AllocError> for DataFault {
    ghost use Rattle.std.specs.Prelude.{◌≡◌};
    ghost use Rattle.wm_data.specs.declared.fault.DataFault.TheVariants.{Memory};

    ghost from_gives = { λ _ fault. fault ≡ Memory };

    fn from(_refused: AllocError) -> DataFault {
        DataFault::Memory
    }
}
