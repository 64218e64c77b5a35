//! Values beside what takes memory.
ghost use Rattle.std.specs.Prelude.{◌≡◌, ◌<◌, ◌∷◌, [], Ok, Some, length, slice_get, IfOk};

use crate::items::Items;
use crate::replica::Replica;
use std::alloc::{AllocError, Global};

/// A value with another one, unless memory was refused to that. It is generic, since the proof of an
/// early return beside a live record or event goes through all shapes of these, and takes minutes.
pub fn both<T: Drop, U: Drop>(value: T, other: Result<U, AllocError>) -> Result<(T, U), AllocError>
    ensures { IfOk result (λ pair. (pair.0 ≡ value) × (other ≡ Ok pair.1)) }
{
    Ok((value, other?))
}

/// A value with a copy of it, and another value.
pub fn copied<T: Replica, U: Drop>(
    alloc: Global,
    value: T,
    other: U,
) -> Result<(T, T, U), AllocError>
    ensures { IfOk result (λ all. all ≡ (value, value, other)) }
{
    let copy = value.replica(alloc)?;
    Ok((value, copy, other))
}

/// A list of one value.
pub fn one<T: Drop>(alloc: Global, value: T) -> Result<Items<T>, AllocError>
    ensures { IfOk result (λ items. items ≡ value ∷ []) }
{
    let mut items = Items::new(alloc);
    items.push(value)?;
    Ok(items)
}

/// The value at an index.
pub fn at<T>(items: &[T], index: usize) -> &T
    requires { index < length items.now }
    ensures { slice_get items.now index ≡ Some result.now }
{
    &items[index]
}
