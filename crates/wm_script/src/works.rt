//! A work as it stands in a line.
ghost use Rattle.std.specs.Prelude.{◌≡◌, option_map};
ghost use Rattle.serde_json.specs.View.{view};
ghost use Rattle.wm_script.specs.Objects.{has_only};
ghost use Rattle.wm_script.specs.Works.{backoff_at, backoff_policy_at, class_at, constraint_keys, constraints_at, flex_at, form_of, id_at, merger_at, network_at, next_at, next_in, period_at, period_of, work_keys, work_of};

use crate::objects::has_only;
use crate::values::{flag_at, id_in, whole_at, whole_in};
use serde_json::Value;
use uuid::Uuid;
use wm_conditions::{Constraints, Network};
use wm_data::Merger;
use wm_request::NextRun;
use wm_schedule::{Backoff, BackoffPolicy};

/// A work as it stands in a line, where its input may be anything. Its tags and the works that it is
/// after stand in lists beside it.
#[derive(Clone, Copy)]
pub struct WorkForm<'v> {
    pub id: Uuid,
    /// A text of any length; empty where there is none.
    pub class: &'v str,
    pub input: Option<&'v Value>,
    pub merger: Merger,
    pub constraints: Constraints,
    /// With its delay as it is asked for, in milliseconds.
    pub backoff: Backoff,
    /// The initial delay, in milliseconds.
    pub delay: u64,
    /// How often it repeats, and its flex interval, as they are asked for, in milliseconds.
    pub period: Option<PeriodForm>,
    /// How long its record is kept once it has finished, in milliseconds.
    pub keep: u64,
}

/// A period, in milliseconds, with a flex interval where there is one, and what is asked of the next
/// run.
#[derive(Clone, Copy)]
pub struct PeriodForm {
    pub period: u64,
    pub flex: Option<u64>,
    pub next: NextRun,
}

/// The work that an object is, which has no other key than these, without its lists. A key that is
/// absent has its default.
#[tactic(auto, unfolding(crate::specs::Works::work_of))]
pub fn work_of(value: &Value) -> Option<WorkForm<'_>>
    ensures { option_map form_of result ≡ work_of (view value.now) }
{
    if !has_work_keys(value) {
        return None;
    }
    Some(WorkForm {
        id: id_at(value.get("id"))?,
        class: class_at(value.get("class"))?,
        input: value.get("input"),
        merger: merger_at(value.get("merger"))?,
        constraints: constraints_at(value.get("constraints"))?,
        backoff: backoff_at(value.get("backoff"))?,
        delay: whole_at(0, value.get("delay"))?,
        period: period_at(value.get("period"), value.get("flex"), value.get("next"))?,
        keep: whole_at(0, value.get("keep"))?,
    })
}

/// A period with its flex interval and what is asked of the next run; neither stands without a
/// period.
#[tactic(auto, unfolding(crate::specs::Works::period_at))]
fn period_at(
    period: Option<&Value>,
    flex: Option<&Value>,
    next: Option<&Value>,
) -> Option<Option<PeriodForm>>
    ensures { option_map period_of result ≡ period_at (option_map (λ found. view found.now) period.entry)
        (option_map (λ found. view found.now) flex.entry) (option_map (λ found. view found.now) next.entry) }
{
    let Some(period) = period else {
        return if flex.is_some() || next.is_some() {
            None
        } else {
            Some(None)
        };
    };
    Some(Some(PeriodForm {
        period: whole_in(period)?,
        flex: flex_at(flex)?,
        next: next_at(next)?,
    }))
}

/// A flex interval, where there is one.
#[tactic(auto, unfolding(crate::specs::Works::flex_at))]
fn flex_at(value: Option<&Value>) -> Option<Option<u64>>
    ensures { result ≡ flex_at (option_map (λ found. view found.now) value.entry) }
{
    match value {
        Some(value) => Some(Some(whole_in(value)?)),
        None => Some(None),
    }
}

/// What is asked of the next run; nothing where there is none.
#[tactic(auto, unfolding(crate::specs::Works::next_at))]
fn next_at(value: Option<&Value>) -> Option<NextRun>
    ensures { result ≡ next_at (option_map (λ found. view found.now) value.entry) }
{
    match value {
        Some(value) => next_in(value),
        None => Some(NextRun::Leave),
    }
}

/// What is asked of the next run: its moment, or null to clear it.
#[tactic(auto, unfolding(crate::specs::Works::next_in))]
fn next_in(value: &Value) -> Option<NextRun>
    ensures { result ≡ next_in (view value.now) }
{
    match value {
        Value::Null => Some(NextRun::Clear),
        _ => Some(NextRun::At(whole_in(value)?)),
    }
}

/// An id. There has to be one.
#[tactic(auto, unfolding(crate::specs::Works::id_at))]
fn id_at(value: Option<&Value>) -> Option<Uuid>
    ensures { result ≡ id_at (option_map (λ found. view found.now) value.entry) }
{
    id_in(value?)
}

/// A class: a text, and an empty one where there is none.
#[tactic(auto, unfolding(crate::specs::Works::class_at))]
fn class_at(value: Option<&Value>) -> Option<&str>
    ensures { option_map (λ class. class.now) result
        ≡ class_at (option_map (λ found. view found.now) value.entry) }
{
    match value {
        Some(value) => value.as_str(),
        None => Some(""),
    }
}

/// A merger by its name; Overwriting where there is none.
#[tactic(auto, unfolding(crate::specs::Works::merger_at))]
fn merger_at(value: Option<&Value>) -> Option<Merger>
    ensures { result ≡ merger_at (option_map (λ found. view found.now) value.entry) }
{
    let Some(value) = value else {
        return Some(Merger::Overwriting);
    };
    match value.as_str()? {
        "OVERWRITING" => Some(Merger::Overwriting),
        "ARRAY" => Some(Merger::ArrayCreating),
        _ => None,
    }
}

/// A network by its name; NotRequired where there is none.
#[tactic(auto, unfolding(crate::specs::Works::network_at))]
fn network_at(value: Option<&Value>) -> Option<Network>
    ensures { result ≡ network_at (option_map (λ found. view found.now) value.entry) }
{
    let Some(value) = value else {
        return Some(Network::NotRequired);
    };
    match value.as_str()? {
        "NOT_REQUIRED" => Some(Network::NotRequired),
        "CONNECTED" => Some(Network::Connected),
        "UNMETERED" => Some(Network::Unmetered),
        "NOT_ROAMING" => Some(Network::NotRoaming),
        "METERED" => Some(Network::Metered),
        _ => None,
    }
}

/// Constraints, each of which may be absent; none is set where there are none.
#[tactic(auto, unfolding(crate::specs::Works::constraints_at))]
fn constraints_at(value: Option<&Value>) -> Option<Constraints>
    ensures { result ≡ constraints_at (option_map (λ found. view found.now) value.entry) }
{
    let Some(value) = value else {
        return Some(Constraints::NONE);
    };
    if !has_constraint_keys(value) {
        return None;
    }
    Some(Constraints {
        network: network_at(value.get("network"))?,
        charging: flag_at(value.get("charging"))?,
        idle: flag_at(value.get("idle"))?,
        battery_not_low: flag_at(value.get("battery_not_low"))?,
        storage_not_low: flag_at(value.get("storage_not_low"))?,
    })
}

/// A policy by its name; Exponential where there is none.
#[tactic(auto, unfolding(crate::specs::Works::backoff_policy_at))]
fn backoff_policy_at(value: Option<&Value>) -> Option<BackoffPolicy>
    ensures { result ≡ backoff_policy_at (option_map (λ found. view found.now) value.entry) }
{
    let Some(value) = value else {
        return Some(BackoffPolicy::Exponential);
    };
    match value.as_str()? {
        "LINEAR" => Some(BackoffPolicy::Linear),
        "EXPONENTIAL" => Some(BackoffPolicy::Exponential),
        _ => None,
    }
}

/// A backoff with its delay as it is asked for; the default where there is none.
#[tactic(auto, unfolding(crate::specs::Works::backoff_at))]
fn backoff_at(value: Option<&Value>) -> Option<Backoff>
    ensures { result ≡ backoff_at (option_map (λ found. view found.now) value.entry) }
{
    let Some(value) = value else {
        return Some(Backoff::DEFAULT);
    };
    if !has_only(value, &["delay", "policy"]) {
        return None;
    }
    Some(Backoff {
        policy: backoff_policy_at(value.get("policy"))?,
        delay: whole_at(Backoff::DEFAULT.delay, value.get("delay"))?,
    })
}

/// Whether it is an object that has no other key than those of a work.
fn has_work_keys(value: &Value) -> bool
    ensures { result ≡ has_only work_keys (view value.now) }
{
    has_only(
        value,
        &[
            "after",
            "backoff",
            "class",
            "constraints",
            "delay",
            "flex",
            "id",
            "input",
            "keep",
            "merger",
            "next",
            "period",
            "tags",
        ],
    )
}

/// Whether it is an object that has no other key than those of constraints.
fn has_constraint_keys(value: &Value) -> bool
    ensures { result ≡ has_only constraint_keys (view value.now) }
{
    has_only(
        value,
        &[
            "battery_not_low",
            "charging",
            "idle",
            "network",
            "storage_not_low",
        ],
    )
}
