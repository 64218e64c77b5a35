//! Values of a list that become others, each by itself.
ghost use Rattle.std.specs.Prelude.{◌≡◌, map, if◌then◌else◌, OnOk};

use std::alloc::{AllocError, Global};
use std::mem;
use wm_collections::Items;

/// What becomes of some values, each by itself.
pub trait Change<T> {
    ghost use Rattle.std.specs.Prelude.{Bool, true};

    /// Which values become others.
    ghost meant: { Self → T → Bool };

    /// What becomes of these.
    ghost made: { Self → T → T };

    /// Whether a value becomes another one.
    fn is_meant(&self, value: &T) -> bool
        ensures { result ≡ meant self.now value.now };

    /// Changes a value that does.
    fn make(&self, alloc: Global, value: &mut T) -> Result<(), AllocError>
        ensures { OnOk result (value.new ≡ made self.now value.old) };
}

/// Changes each value that is meant.
pub fn change_each<T, C: Change<T>>(
    alloc: Global,
    values: &mut [T],
    change: &C,
) -> Result<(), AllocError>
    ensures { OnOk result (values.new
        ≡ map (λ value. if C.meant change.now value then C.made change.now value else value) values.old) }
{
    for value in values.iter_mut() {
        if change.is_meant(value) {
            change.make(alloc, value)?;
        }
    }
    Ok(())
}

/// Changes each value of a list that is meant.
pub fn change_items<T: Drop, C: Change<T>>(
    alloc: Global,
    items: &mut Items<T>,
    change: &C,
) -> Result<(), AllocError>
    ensures { OnOk result (items.new
        ≡ map (λ value. if C.meant change.now value then C.made change.now value else value) items.old) }
{
    let mut elements = mem::replace(items, Items::new(alloc)).into_vec();
    change_each(alloc, elements.as_mut_slice(), change)?;
    *items = Items::from_vec(elements);
    Ok(())
}
