//! Whether a number is among others.
ghost use Rattle.std.specs.Prelude.{◌≡◌};
ghost use Rattle.wm_collections.specs.Lists.{is_among};

/// Whether a number is one of these.
pub fn is_among(numbers: &[u64], number: u64) -> bool
    ensures { result ≡ is_among numbers.now number }
{
    numbers.contains(&number)
}
