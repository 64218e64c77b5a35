//! That numbers are in their types: it is known of a number once it is read.
ghost use Rattle.std.specs.Prelude.{FitsSigned};
ghost use Rattle.std.specs.Int.{w8, w32, w64};
ghost use Rattle.std.specs.List.{AllByRecursion};

use wm_collections::Items;

/// A number that a value holds one or a list of.
pub(crate) trait Number: Drop {
    /// Its type holds it.
    ghost is_in_type: { Self → Type 0 };

    fn read(&self)
        ensures { is_in_type self.now };
}

impl Number for i8 {
    ghost is_in_type = { FitsSigned w8 };

    fn read(&self) {
        let _number = *self;
    }
}

impl Number for i32 {
    ghost is_in_type = { FitsSigned w32 };

    fn read(&self) {
        let _number = *self;
    }
}

impl Number for i64 {
    ghost is_in_type = { FitsSigned w64 };

    fn read(&self) {
        let _number = *self;
    }
}

pub(crate) fn read_each<T: Number>(numbers: &Items<T>)
    ensures { AllByRecursion T.is_in_type numbers.now }
{
    for number in numbers.as_slice() {
        number.read();
    }
}
