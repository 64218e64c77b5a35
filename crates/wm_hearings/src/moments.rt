//! The moments of a session.
ghost use Rattle.std.specs.Prelude.{◌≡◌};
ghost use Rattle.wm_leases.specs.Leases.{lesser};
ghost use Rattle.wm_hearings.specs.Moments.{end_after, has_overslept, moment_of, slack};

use crate::hearing::Terms;
use wm_asks::LAST_MOMENT;

/// The least time by which a hearing is late where it is the engine that didn't listen, in milliseconds.
const LEAST_SLACK: u64 = 100;

/// The moment of a hearing, cut off at 2^53 - 1.
pub fn moment_of(at: u64) -> u64
    ensures { result ≡ moment_of at }
{
    at.min(LAST_MOMENT)
}

/// The end of a lease of this length that begins at a moment; none where it is above 2^53 - 1, since that
/// never comes.
pub fn end_after(moment: u64, lease: u64) -> Option<u64>
    ensures { result ≡ end_after moment lease }
{
    let end = moment.checked_add(lease)?;
    if end <= LAST_MOMENT { Some(end) } else { None }
}

/// The lesser of two moments, of which either may be none.
pub fn lesser(one: Option<u64>, other: Option<u64>) -> Option<u64>
    ensures { result ≡ lesser one other }
{
    match (one, other) {
        (None, other) => other,
        (one, None) => one,
        (Some(one), Some(other)) => Some(one.min(other)),
    }
}

/// How late a hearing may be before it is the engine that didn't listen.
fn slack(terms: &Terms) -> u64
    ensures { result ≡ slack terms.now }
{
    LEAST_SLACK.max(terms.lease / 10)
}

/// Whether a hearing at a moment is so late that it is the engine that didn't listen, where a session had
/// told until when it has nothing to do: a machine that slept.
pub fn has_overslept(terms: &Terms, until: Option<u64>, moment: u64) -> bool
    ensures { result ≡ has_overslept terms.now until moment }
{
    match until {
        Some(until) => until.saturating_add(slack(terms)) < moment,
        None => false,
    }
}
