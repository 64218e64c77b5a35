//! How the plain fields of a row are read. Each answers none where its field isn't in the grammar.
ghost use Rattle.std.specs.Prelude.{◌≡◌, ◌≤◌, IfOk, IfSome};
ghost use Rattle.wm_rows.specs.Fields.{coded, constraints_in, each_in, form_in, greatest, has_flag, has_given, last_finish, least_attempt, may_override, mergers, moment_in, most_keep, most_prior, most_runs, networks, number_in, period_in, period_of, phase_in, phases, policies, prior_in};
ghost use Rattle.wm_rows.specs.declared.fields.Form.TheVariants.{Second};
ghost use Rattle.wm_schedule.specs.Clamped.{IsPeriod};
ghost use Rattle.wm_schedule.specs.Moments.{IsDelay};

use std::alloc::{AllocError, Global};
use wm_collections::Items;
use wm_conditions::{Constraints, Network};
use wm_data::Merger;
use wm_machine::{How, NUMBERS_END, Phase};
use wm_request::MAX_DELAY;
use wm_schedule::{BackoffPolicy, Period};

/// The form of a row.
#[derive(Clone, Copy)]
pub(crate) enum Form {
    /// It tells neither of the next run nor how long the record is kept nor when the work finished.
    First,
    /// It tells of all of it.
    Second,
}

/// The greatest number of a work, and the greatest generation and moment.
pub(crate) const GREATEST: u64 = NUMBERS_END - 1;

/// The least period and flex interval, in milliseconds.
const LEAST_PERIOD: u64 = 900_000;

const LEAST_FLEX: u64 = 300_000;

/// The most prerequisites of one-time work, and the most periods that periodic work has run.
const MOST_PRIOR: usize = 100;

const MOST_RUNS: u64 = 1_000_000;

/// A number from the least to the most.
#[tactic(auto, unfolding(crate::specs::Fields::number_in))]
pub(crate) fn number_in(least: u64, most: u64, value: i64) -> Option<u64>
    ensures number { result ≡ number_in least most value }
    ensures within { IfSome result (λ number. (least ≤ number) × (number ≤ most)) }
{
    let number = u64::try_from(value).ok()?;
    if least <= number && number <= most {
        Some(number)
    } else {
        None
    }
}

/// The form of a row of this version.
#[tactic(auto, unfolding(crate::specs::Fields::form_in))]
pub(crate) fn form_in(version: i64) -> Option<Form>
    ensures { result ≡ form_in version }
{
    let number = number_in(1, 2, version)?;
    if number == 1 {
        Some(Form::First)
    } else {
        Some(Form::Second)
    }
}

/// What a code stands for: its place among these.
fn coded<T: Copy>(meanings: &[T], code: i64) -> Option<T>
    ensures { result ≡ coded meanings.now code }
{
    let place = usize::try_from(code).ok()?;
    meanings.get(place).copied()
}

/// How often work of a kind repeats; none for one-time work.
#[tactic(auto, unfolding(crate::specs::Fields::period_in))]
pub(crate) fn period_in(kind: i64, period: i64, flex: i64) -> Option<Option<Period>>
    ensures period { result ≡ period_in kind period flex }
    ensures within { IfSome result (λ read. IfSome read (λ period. IsPeriod period × IsDelay period.period)) }
{
    let periodic = coded(&[false, true], kind)?;
    period_of(periodic, period, flex)
}

/// A period and a flex interval within it, and both 0 for one-time work.
fn period_of(periodic: bool, period: i64, flex: i64) -> Option<Option<Period>>
    ensures period { result ≡ period_of periodic period flex }
    ensures within { IfSome result (λ read. IfSome read (λ period. IsPeriod period × IsDelay period.period)) }
{
    if periodic {
        let period = number_in(LEAST_PERIOD, MAX_DELAY, period)?;
        let flex = number_in(LEAST_FLEX, period, flex)?;
        Some(Some(Period { period, flex }))
    } else {
        number_in(0, 0, period)?;
        number_in(0, 0, flex)?;
        Some(None)
    }
}

/// A backoff policy by its code.
pub(crate) fn policy_in(code: i64) -> Option<BackoffPolicy>
    ensures { result ≡ coded policies code }
{
    coded(&[BackoffPolicy::Linear, BackoffPolicy::Exponential], code)
}

/// A merger by its code.
pub(crate) fn merger_in(code: i64) -> Option<Merger>
    ensures { result ≡ coded mergers code }
{
    coded(&[Merger::Overwriting, Merger::ArrayCreating], code)
}

/// A network by its code.
fn network_in(code: i64) -> Option<Network>
    ensures { result ≡ coded networks code }
{
    let networks = [
        Network::NotRequired,
        Network::Connected,
        Network::Unmetered,
        Network::NotRoaming,
        Network::Metered,
    ];
    coded(&networks, code)
}

/// Whether the flag of this weight is set.
fn has_flag(weight: u64, flags: u64) -> bool
    requires { 1 ≤ weight }
    ensures { result ≡ has_flag weight flags }
{
    flags / weight % 2 == 1
}

/// Constraints by the code of their network and by the flags of the others, added up.
#[tactic(auto, unfolding(crate::specs::Fields::constraints_in))]
pub(crate) fn constraints_in(network: i64, flags: i64) -> Option<Constraints>
    ensures { result ≡ constraints_in network flags }
{
    let network = network_in(network)?;
    let flags = number_in(0, 15, flags)?;
    Some(Constraints {
        network,
        charging: has_flag(8, flags),
        idle: has_flag(4, flags),
        battery_not_low: has_flag(2, flags),
        storage_not_low: has_flag(1, flags),
    })
}

/// How long a record is kept at most, in milliseconds.
pub(crate) fn most_keep(form: Form) -> u64
    ensures keep { result ≡ most_keep form }
    ensures within { IsDelay result }
{
    match form {
        Form::First => 0,
        Form::Second => MAX_DELAY,
    }
}

/// Whether work in this phase has given something.
pub(crate) fn has_given(phase: Phase) -> bool
    ensures { result ≡ has_given phase }
{
    matches!(phase, Phase::Done(How::Succeeded | How::Failed))
}

/// A phase by its code; periodic work has none in which it would have given something.
#[tactic(auto, unfolding(crate::specs::Fields::phase_in))]
pub(crate) fn phase_in(period: Option<Period>, code: i64) -> Option<Phase>
    ensures { result ≡ phase_in period code }
{
    let phase = phase_of(code)?;
    if period.is_none() || !has_given(phase) {
        Some(phase)
    } else {
        None
    }
}

/// A phase by its code.
fn phase_of(code: i64) -> Option<Phase>
    ensures { result ≡ coded phases code }
{
    let phases = [
        Phase::Waiting,
        Phase::Running,
        Phase::Done(How::Succeeded),
        Phase::Done(How::Failed),
        Phase::Done(How::Cancelled),
    ];
    coded(&phases, code)
}

/// How often work in this phase was started at least.
pub(crate) fn least_attempt(phase: Phase) -> u64
    ensures { result ≡ least_attempt phase }
{
    match phase {
        Phase::Running | Phase::Done(How::Succeeded) => 1,
        _ => 0,
    }
}

/// How many periods of work have run at most.
pub(crate) fn most_runs(period: Option<Period>) -> u64
    ensures { result ≡ most_runs period }
{
    match period {
        None => 0,
        Some(_) => MOST_RUNS,
    }
}

/// The moment of the next run, which a row of the second form tells of periodic work.
pub(crate) fn override_in(form: Form, period: Option<Period>, value: i64) -> Option<Option<u64>>
    ensures { result ≡ moment_in (may_override form period) value }
{
    moment_in(may_override(form, period), value)
}

/// Whether a row of this form may tell of a moment for the next run.
fn may_override(form: Form, period: Option<Period>) -> bool
    ensures { result ≡ may_override form period }
{
    match form {
        Form::First => false,
        Form::Second => period.is_some(),
    }
}

/// A moment, where there may be one, and -1 where there is none.
#[tactic(auto, unfolding(crate::specs::Fields::moment_in))]
fn moment_in(may: bool, value: i64) -> Option<Option<u64>>
    ensures { result ≡ moment_in may value }
{
    if value == -1 {
        return Some(None);
    }
    if !may {
        return None;
    }
    let moment = number_in(0, GREATEST, value)?;
    Some(Some(moment))
}

/// The last moment at which work in this phase may have finished.
pub(crate) fn last_finish(form: Form, phase: Phase) -> u64
    ensures { result ≡ last_finish form phase }
{
    match form {
        Form::First => 0,
        Form::Second => last_moment(phase),
    }
}

/// The last moment at which work in this phase finished, which is told of finished work.
fn last_moment(phase: Phase) -> u64
    ensures { result ≡ last_finish Second phase }
{
    match phase {
        Phase::Done(_) => GREATEST,
        _ => 0,
    }
}

/// How many prerequisites work has at most.
fn most_prior(period: Option<Period>) -> usize
    ensures { result ≡ most_prior period }
{
    match period {
        None => MOST_PRIOR,
        Some(_) => 0,
    }
}

/// The prerequisites by their numbers.
#[tactic(auto, unfolding(crate::specs::Fields::prior_in))]
pub(crate) fn prior_in(
    alloc: Global,
    period: Option<Period>,
    prior: &[i64],
) -> Result<Option<Items<u64>>, AllocError>
    ensures { IfOk result (λ read. read ≡ prior_in period prior.now) }
{
    if prior.len() <= most_prior(period) {
        numbers_in(alloc, prior)
    } else {
        Ok(None)
    }
}

/// Numbers of works.
fn numbers_in(alloc: Global, values: &[i64]) -> Result<Option<Items<u64>>, AllocError>
    ensures { IfOk result (λ numbers. numbers ≡ each_in (number_in 1 greatest) values.now) }
{
    let mut numbers = Items::new(alloc);
    for value in values {
        match number_in(1, GREATEST, *value) {
            Some(number) => numbers.push(number)?,
            None => return Ok(None),
        }
    }
    Ok(Some(numbers))
}
