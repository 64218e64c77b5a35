//! Whether a record has a row.
ghost use Rattle.std.specs.Prelude.{◌↔◌, ◌^◌, ◌<◌, All, IfSome, IsTrue};
ghost use Rattle.wm_machine.specs.Limits.{FitsRow};

use wm_machine::{NUMBERS_END, Record};

/// Whether numbers are within their limits.
fn are_within(numbers: &[u64]) -> bool
    ensures { IsTrue result ↔ All (λ number. number < 2 ^ 53) numbers.now }
{
    numbers.iter().all(|number| *number < NUMBERS_END)
}

/// Whether a moment, where there is one, is within its limits.
fn is_within(moment: Option<u64>) -> bool
    ensures { IsTrue result ↔ IfSome moment (λ moment. moment < 2 ^ 53) }
{
    match moment {
        Some(moment) => moment < NUMBERS_END,
        None => true,
    }
}

/// Whether the numbers of a record are within those that a row has.
pub fn fits_row(work: &Record) -> bool
    ensures { IsTrue result ↔ FitsRow work.now }
{
    work.seq < NUMBERS_END
        && work.generation < NUMBERS_END
        && work.enqueued_at < NUMBERS_END
        && is_within(work.override_at)
        && work.finished_at < NUMBERS_END
        && are_within(work.prior.as_slice())
}
