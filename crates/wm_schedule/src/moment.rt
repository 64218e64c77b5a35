//! The moment from which on a work may start.
ghost use Rattle.std.specs.Prelude.{◌≡◌};
ghost use Rattle.wm_schedule.specs.Due.{due_after_delay, due_at, first_wait};
ghost use Rattle.wm_schedule.specs.Moments.{AreTimes};

use crate::schedule::Times;
use crate::waiting::wait;

/// The moment from which on a work may start, in milliseconds: the one that takes the place of its
/// delays, where there is one; else after its wait where it is to be retried, else after its initial
/// delay, to which periodic work adds the rest of its first period before the flex interval; later
/// periods follow one another. It takes no memory.
#[tactic(auto, unfolding(crate::specs::Due::due_at))]
pub fn due(times: &Times) -> u64
    requires { AreTimes times.now }
    ensures { result ≡ due_at times.now }
{
    match times.override_at {
        Some(at) => at,
        None => due_after_delay(times),
    }
}

/// The moment from which on a work may start by its delays alone.
fn due_after_delay(times: &Times) -> u64
    requires { AreTimes times.now }
    ensures { result ≡ due_after_delay times.now }
{
    if times.backoff_n > 0 {
        times.enqueued_at + wait(&times.backoff, times.backoff_n)
    } else {
        times.enqueued_at + first_wait(times)
    }
}

/// How long a work waits that isn't retried.
fn first_wait(times: &Times) -> u64
    requires { AreTimes times.now }
    ensures { result ≡ first_wait times.now.period times.now.initial_delay times.now.runs }
{
    match times.period {
        None => times.initial_delay,
        Some(period) => {
            if times.runs == 0 {
                times.initial_delay + (period.period - period.flex)
            } else {
                period.period
            }
        }
    }
}
