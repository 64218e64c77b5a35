//! Copies that contracts know to be equal.
ghost use Rattle.std.specs.Prelude.{◌≡◌, IfOk};

use crate::items::Items;
use crate::text::Text;
use std::alloc::{AllocError, Global};

/// A copy that contracts know to be equal to what was copied, which a derived `Clone` leaves open
/// behind an enum.
pub trait Replica: Drop {
    /// A copy of this value, in memory of its own.
    fn replica(&self, alloc: Global) -> Result<Self, AllocError>
        ensures { IfOk result (λ copy. copy ≡ self.now) };
}

impl Replica for Text {
    fn replica(&self, alloc: Global) -> Result<Text, AllocError> {
        Text::from_str(alloc, self.as_str())
    }
}

impl<T: Replica> Replica for Items<T> {
    fn replica(&self, alloc: Global) -> Result<Items<T>, AllocError> {
        let mut copies = Vec::with_capacity(alloc, self.len())?;
        for element in self.as_slice() {
            copies.push(element.replica(alloc)?)?;
        }
        Ok(Items::from_vec(copies))
    }
}

impl<T: Replica> Replica for Option<T> {
    fn replica(&self, alloc: Global) -> Result<Option<T>, AllocError> {
        match self {
            Some(value) => Ok(Some(value.replica(alloc)?)),
            None => Ok(None),
        }
    }
}

impl Replica for bool {
    fn replica(&self, _alloc: Global) -> Result<bool, AllocError> {
        Ok(*self)
    }
}

impl Replica for u8 {
    fn replica(&self, _alloc: Global) -> Result<u8, AllocError> {
        Ok(*self)
    }
}

impl Replica for u64 {
    fn replica(&self, _alloc: Global) -> Result<u64, AllocError> {
        Ok(*self)
    }
}

impl Replica for i8 {
    fn replica(&self, _alloc: Global) -> Result<i8, AllocError> {
        Ok(*self)
    }
}

impl Replica for i32 {
    fn replica(&self, _alloc: Global) -> Result<i32, AllocError> {
        Ok(*self)
    }
}

impl Replica for i64 {
    fn replica(&self, _alloc: Global) -> Result<i64, AllocError> {
        Ok(*self)
    }
}
