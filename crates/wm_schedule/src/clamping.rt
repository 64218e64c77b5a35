//! The limits that backoffs and periods are clamped to.
ghost use Rattle.std.specs.Prelude.{◌≡◌};
ghost use Rattle.wm_schedule.specs.Clamped.{clamped_delay, clamped_flex, clamped_period, IsBackoffDelay, IsPeriod};

use crate::schedule::Period;

/// The least delay of a backoff, in milliseconds: `WorkRequest.MIN_BACKOFF_MILLIS`.
const MIN_BACKOFF: u64 = 10_000;

/// The longest wait, in milliseconds: `WorkRequest.MAX_BACKOFF_MILLIS`.
pub(crate) const MAX_BACKOFF: u64 = 18_000_000;

/// The least period, in milliseconds: `PeriodicWorkRequest.MIN_PERIODIC_INTERVAL_MILLIS`.
const MIN_PERIOD: u64 = 900_000;

/// The least flex interval, in milliseconds: `PeriodicWorkRequest.MIN_PERIODIC_FLEX_MILLIS`.
const MIN_FLEX: u64 = 300_000;

/// The delay of a backoff, in milliseconds: raised to 10,000 or lowered to 18,000,000. It takes no
/// memory.
pub fn clamp_backoff(delay: u64) -> u64
    ensures clamped { result ≡ clamped_delay delay }
    ensures within { IsBackoffDelay result }
{
    delay.max(MIN_BACKOFF).min(MAX_BACKOFF)
}

/// A period and its flex interval, in milliseconds: they are raised to 900,000 and 300,000, and the
/// flex interval is lowered to the period, which it is where there is none. It takes no memory.
pub fn clamp_period(period: u64, flex: Option<u64>) -> Period
    ensures clamped { result ≡ clamped_period period flex }
    ensures within { IsPeriod result }
{
    let period = period.max(MIN_PERIOD);
    let flex = match flex {
        Some(flex) => flex.max(MIN_FLEX).min(period),
        None => period,
    };
    Period { period, flex }
}
