//! Waits, their limits and due moments, of `wm_schedule`.
ghost use Rattle.std.specs.Prelude.{◌≡◌, true, IfSome};
ghost use Rattle.wm_schedule.specs.Clamped.{IsPeriod};
ghost use Rattle.wm_schedule.specs.Moments.{AreTimes, IsDelay};

use crate::told::Told;
use case_files::fields::{RowFault, count, has_only, number, number_if, text, unless_refused};
use case_files::names::backoff_policy_named;
use serde_json::Value;
use std::alloc::Global;
use wm_schedule::{Backoff, BackoffPolicy, Period, Times, clamp_backoff, clamp_period, due, wait};

/// The greatest moment, in milliseconds.
const LAST_MOMENT: u64 = 9_007_199_254_740_991;

/// The longest initial delay and the longest period, in milliseconds.
const LONGEST: u64 = 315_360_000_000;

/// The keys of times.
const TIMES: [&str; 9] = [
    "enqueued_at",
    "initial_delay",
    "policy",
    "delay",
    "backoff_n",
    "period",
    "flex",
    "runs",
    "override_at",
];

/// The policy of a row's backoff.
fn policy(row: &Value) -> Result<BackoffPolicy, RowFault> {
    backoff_policy_named(text(row, "policy")?).ok_or(RowFault::Value)
}

/// How long a backoff that is asked for with a delay waits after an attempt.
pub fn waited(row: &Value) -> Result<Value, RowFault> {
    has_only(row, &["policy", "delay", "attempt"])?;
    let backoff = Backoff {
        policy: policy(row)?,
        delay: clamp_backoff(number(row, "delay")?),
    };
    let attempt = count(row, "attempt")?;
    if attempt < 1 {
        return Err(RowFault::Value);
    }
    Ok(Value::from(wait(&backoff, attempt)))
}

/// What the delay of a backoff is raised or lowered to.
pub fn backoff_delay(row: &Value) -> Result<Value, RowFault> {
    has_only(row, &["asked"])?;
    Ok(Value::from(clamp_backoff(number(row, "asked")?)))
}

/// What a period and its flex interval are raised or lowered to.
pub fn period(alloc: Global, row: &Value) -> Result<Value, RowFault> {
    has_only(row, &["asked", "flex"])?;
    let Period { period, flex } = clamp_period(number(row, "asked")?, number_if(row, "flex")?);
    let mut told = Told::new(alloc);
    told.number("period", period);
    told.number("flex", flex);
    unless_refused(told.into_value())
}

/// The backoff of a row; the one that requests have where it has none.
fn backoff(row: &Value) -> Result<Backoff, RowFault> {
    if row.get("policy").is_none() {
        return Ok(Backoff::DEFAULT);
    }
    Ok(Backoff {
        policy: policy(row)?,
        delay: number(row, "delay")?,
    })
}

/// The period of a row, where it has one.
fn period_if(row: &Value) -> Result<Option<Period>, RowFault> {
    let Some(period) = number_if(row, "period")? else {
        return Ok(None);
    };
    let flex = number(row, "flex")?;
    Ok(Some(Period { period, flex }))
}

fn times(row: &Value) -> Result<Times, RowFault> {
    Ok(Times {
        enqueued_at: number(row, "enqueued_at")?,
        initial_delay: number(row, "initial_delay")?,
        backoff: backoff(row)?,
        backoff_n: count(row, "backoff_n")?,
        period: period_if(row)?,
        runs: count(row, "runs")?,
        override_at: number_if(row, "override_at")?,
    })
}

/// Whether a period is within its limits; none is.
fn is_period(period: Option<Period>) -> bool
    ensures { result ≡ true → IfSome period (λ period. IsPeriod period × IsDelay period.period) }
{
    match period {
        Some(Period { period, flex }) => {
            period >= 900_000 && period <= LONGEST && flex >= 300_000 && flex <= period
        }
        None => true,
    }
}

/// Whether times are within their limits.
fn are_within(times: &Times) -> bool
    ensures { result ≡ true → AreTimes times.now }
{
    times.enqueued_at <= LAST_MOMENT
        && times.initial_delay <= LONGEST
        && times.backoff.delay >= 10_000
        && times.backoff.delay <= 18_000_000
        && is_period(times.period)
}

/// When a work of such times is due.
pub fn due_at(row: &Value) -> Result<Value, RowFault> {
    has_only(row, &TIMES)?;
    let times = times(row)?;
    if !are_within(&times) {
        return Err(RowFault::Value);
    }
    Ok(Value::from(due(&times)))
}
