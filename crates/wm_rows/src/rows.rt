//! The row of a record, and whether two records have one row.
ghost use Rattle.std.specs.Prelude.{◌≡◌, ◌^◌, ◌<◌, All, map, pos, Decides, IfOk, IfSome};
ghost use Rattle.wm_machine.specs.Limits.{FitsRow};
ghost use Rattle.wm_machine.specs.Rows.{row_of, kind_code, period_code, flex_code, policy_code, merger_code, moment_code, network_code, flags_code, phase_code};

use std::alloc::{AllocError, Global};
use uuid::Uuid;
use wm_collections::{Items, Replica};
use wm_conditions::{Constraints, Network};
use wm_data::Merger;
use wm_keeper::Row;
use wm_machine::{How, Phase, Record};
use wm_schedule::{BackoffPolicy, Period};

/// The form of the rows that are written.
const ROW_VERSION: i64 = 2;

fn kind_code(period: &Option<Period>) -> i64
    ensures { result ≡ kind_code period.now }
{
    match period {
        None => 0,
        Some(_) => 1,
    }
}

fn period_code(period: &Option<Period>) -> i64
    requires { IfSome period.now (λ p. p.period < 2 ^ 53) }
    ensures { result ≡ period_code period.now }
{
    match period {
        None => 0,
        Some(period) => stored_number(period.period),
    }
}

fn flex_code(period: &Option<Period>) -> i64
    requires { IfSome period.now (λ p. p.flex < 2 ^ 53) }
    ensures { result ≡ flex_code period.now }
{
    match period {
        None => 0,
        Some(period) => stored_number(period.flex),
    }
}

fn policy_code(policy: BackoffPolicy) -> i64
    ensures { result ≡ policy_code policy }
{
    match policy {
        BackoffPolicy::Linear => 0,
        BackoffPolicy::Exponential => 1,
    }
}

fn merger_code(merger: Merger) -> i64
    ensures { result ≡ merger_code merger }
{
    match merger {
        Merger::Overwriting => 0,
        Merger::ArrayCreating => 1,
    }
}

fn network_code(network: Network) -> i64
    ensures { result ≡ network_code network }
{
    match network {
        Network::NotRequired => 0,
        Network::Connected => 1,
        Network::Unmetered => 2,
        Network::NotRoaming => 3,
        Network::Metered => 4,
    }
}

fn flags_code(constraints: &Constraints) -> i64
    ensures { result ≡ flags_code constraints.now }
{
    let charging = if constraints.charging { 8 } else { 0 };
    let idle = if constraints.idle { 4 } else { 0 };
    let battery_not_low = if constraints.battery_not_low { 2 } else { 0 };
    let storage_not_low = if constraints.storage_not_low { 1 } else { 0 };
    let flags: u8 = charging + idle + battery_not_low + storage_not_low;
    i64::from(flags)
}

fn phase_code(phase: Phase) -> i64
    ensures { result ≡ phase_code phase }
{
    match phase {
        Phase::Waiting => 0,
        Phase::Running => 1,
        Phase::Done(How::Succeeded) => 2,
        Phase::Done(How::Failed) => 3,
        Phase::Done(How::Cancelled) => 4,
    }
}

fn moment_code(moment: Option<u64>) -> i64
    requires { IfSome moment (λ moment. moment < 2 ^ 53) }
    ensures { result ≡ moment_code moment }
{
    match moment {
        None => -1,
        Some(moment) => stored_number(moment),
    }
}

/// A number as a row holds it.
fn stored_number(number: u64) -> i64
    requires { number < 2 ^ 53 }
    ensures { result ≡ pos number }
{
    number as i64
}

/// The bytes of an id.
fn stored_id(alloc: Global, id: &Uuid) -> Result<Items<u8>, AllocError>
    ensures { IfOk result (λ bytes. bytes ≡ id.now) }
{
    Ok(Items::from_vec(Vec::from_slice(alloc, id.as_bytes())?))
}

/// Numbers as a row holds them.
fn stored_numbers(alloc: Global, numbers: &[u64]) -> Result<Items<i64>, AllocError>
    requires { All (λ number. number < 2 ^ 53) numbers.now }
    ensures { IfOk result (λ stored. stored ≡ map pos numbers.now) }
{
    let mut stored = Items::new(alloc);
    for number in numbers {
        stored.push(stored_number(*number))?;
    }
    Ok(stored)
}

/// The row of a record, whose numbers are within their limits. Its progress isn't stored.
pub fn to_row(alloc: Global, work: &Record) -> Result<Row, AllocError>
    requires fits { FitsRow work.now }
    ensures { IfOk result (λ row. row ≡ row_of work.now) }
{
    let request = &work.request;
    let (constraints, backoff) = (request.constraints(), request.backoff());
    let period = request.period();
    Ok(Row {
        version: ROW_VERSION,
        seq: stored_number(work.seq),
        id: stored_id(alloc, &request.id())?,
        name: work.name.replica(alloc)?,
        class: request.class().replica(alloc)?,
        kind: kind_code(&period),
        period: period_code(&period),
        flex: flex_code(&period),
        delay: stored_number(request.initial_delay()),
        policy: policy_code(backoff.policy),
        wait: stored_number(backoff.delay),
        merger: merger_code(request.merger()),
        network: network_code(constraints.network),
        flags: flags_code(&constraints),
        phase: phase_code(work.phase),
        attempt: i64::from(work.attempt),
        backoff_n: i64::from(work.backoff_n),
        runs: i64::from(work.runs),
        generation: stored_number(work.generation),
        enqueued_at: stored_number(work.enqueued_at),
        input: request.input().to_text(alloc)?,
        output: work.output.to_text(alloc)?,
        prior: stored_numbers(alloc, work.prior.as_slice())?,
        tags: request.tags().replica(alloc)?,
        next_at: moment_code(work.override_at),
        keep_for: stored_number(request.keep()),
        finished_at: stored_number(work.finished_at),
    })
}

/// Whether two rows are the same.
#[tactic(auto, using(wm_keeper::proofs::Equal::row_decides))]
pub fn is_same(one: &Row, other: &Row) -> bool
    ensures { Decides result (one.now ≡ other.now) }
{
    *one == *other
}

/// Whether two records, whose numbers are within their limits, have one row.
pub fn have_one_row(alloc: Global, one: &Record, other: &Record) -> Result<bool, AllocError>
    requires one { FitsRow one.now }
    requires other { FitsRow other.now }
    ensures { IfOk result (λ same. Decides same (row_of one.now ≡ row_of other.now)) }
{
    let one = to_row(alloc, one)?;
    let other = to_row(alloc, other)?;
    Ok(is_same(&one, &other))
}
