//! How long a work waits to be retried.
ghost use Rattle.std.specs.Prelude.{◌≡◌, ◌≤◌, ◌*◌, ◌^◌, min};
ghost use Rattle.wm_schedule.specs.Clamped.{IsBackoffDelay};
ghost use Rattle.wm_schedule.specs.Due.{grown, wait_after};

use crate::clamping::MAX_BACKOFF;
use crate::schedule::{Backoff, BackoffPolicy};

/// How often the least delay is doubled until it is past the longest wait.
const MAX_DOUBLINGS: u32 = 11;

/// How long a work waits after attempt `n`, counted from 1, that is to be retried, in milliseconds:
/// its delay `n` times, or doubled `n - 1` times, and at most 18,000,000. It takes no memory.
pub fn wait(backoff: &Backoff, n: u32) -> u64
    requires counted { 1 ≤ n }
    requires clamped { IsBackoffDelay backoff.now.delay }
    ensures { result ≡ wait_after backoff.now n }
{
    match backoff.policy {
        BackoffPolicy::Linear => (backoff.delay * u64::from(n)).min(MAX_BACKOFF),
        BackoffPolicy::Exponential => doubled(backoff.delay, n - 1),
    }
}

/// A delay that is doubled so often, and at most the longest wait.
fn doubled(delay: u64, times: u32) -> u64
    requires { IsBackoffDelay delay }
    ensures { result ≡ min (delay * 2 ^ times) 18000000 }
{
    if times >= MAX_DOUBLINGS {
        MAX_BACKOFF
    } else {
        (delay << times).min(MAX_BACKOFF)
    }
}
