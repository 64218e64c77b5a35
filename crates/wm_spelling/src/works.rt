//! A work as it is spelled.
ghost use Rattle.std.specs.Prelude.{◌≡◌, IfOk, OnOk};
ghost use Rattle.serde_json.specs.View.{view, members_view};
ghost use Rattle.wm_data.specs.DataJson.{data_json};
ghost use Rattle.wm_spelling.specs.Works.{backoff_json, constraints_json, request_json, request_members, with_next, with_period, work_members};

use crate::names::{backoff_name, merger_name, network_name};
use crate::spell::{Spell, id_value, list_value};
use serde_json::{Map, Value, json, put};
use std::alloc::{AllocError, Global};
use wm_conditions::Constraints;
use wm_data::Data;
use wm_request::{NextRun, Node, Request};
use wm_schedule::{Backoff, Period};

impl Spell for Node {
    ghost use Rattle.wm_spelling.specs.Works.{node_json};

    ghost form = { node_json };

    /// A work with those that it is after.
    fn to_json(&self, alloc: Global) -> Result<Value, AllocError> {
        let mut members = request_members(alloc, &self.request)?;
        put(
            &mut members,
            alloc,
            "after",
            list_value(alloc, &self.after)?,
        )?;
        Ok(Value::Object(members))
    }
}

/// A work without those that it is after.
pub(crate) fn request_value(alloc: Global, request: &Request) -> Result<Value, AllocError>
    ensures { IfOk result (λ value. view value ≡ request_json request.now) }
{
    let members = request_members(alloc, request)?;
    Ok(Value::Object(members))
}

fn request_members(alloc: Global, request: &Request) -> Result<Map<String, Value>, AllocError>
    ensures { IfOk result (λ members. members_view members.entries ≡ request_members request.now) }
{
    let mut members = work_members(alloc, request)?;
    put_period(&mut members, alloc, request.period())?;
    put_next(&mut members, alloc, request.next())?;
    Ok(members)
}

/// What is spelled of every work.
fn work_members(alloc: Global, request: &Request) -> Result<Map<String, Value>, AllocError>
    ensures { IfOk result (λ members. members_view members.entries ≡ work_members request.now) }
{
    let mut members = Map::new(alloc);
    let backoff = backoff_value(alloc, request.backoff())?;
    put(&mut members, alloc, "backoff", backoff)?;
    let class = Value::try_from_str(alloc, request.class().as_str())?;
    put(&mut members, alloc, "class", class)?;
    let constraints = constraints_value(alloc, request.constraints())?;
    put(&mut members, alloc, "constraints", constraints)?;
    put(
        &mut members,
        alloc,
        "delay",
        Value::from(request.initial_delay()),
    )?;
    put(&mut members, alloc, "id", id_value(alloc, &request.id())?)?;
    put(
        &mut members,
        alloc,
        "input",
        data_value(alloc, request.input())?,
    )?;
    put(&mut members, alloc, "keep", Value::from(request.keep()))?;
    let merger = Value::try_from_str(alloc, merger_name(request.merger()))?;
    put(&mut members, alloc, "merger", merger)?;
    put(
        &mut members,
        alloc,
        "tags",
        list_value(alloc, request.tags())?,
    )?;
    Ok(members)
}

/// Puts the period and the flex interval of periodic work.
fn put_period(
    members: &mut Map<String, Value>,
    alloc: Global,
    period: Option<Period>,
) -> Result<(), AllocError>
    ensures { OnOk result (members_view members.new.entries
        ≡ with_period period (members_view members.old.entries)) }
{
    let Some(period) = period else {
        return Ok(());
    };
    put(members, alloc, "period", Value::from(period.period))?;
    put(members, alloc, "flex", Value::from(period.flex))
}

/// Puts the moment of the next run, or null where it is cleared.
fn put_next(
    members: &mut Map<String, Value>,
    alloc: Global,
    next: NextRun,
) -> Result<(), AllocError>
    ensures { OnOk result (members_view members.new.entries
        ≡ with_next next (members_view members.old.entries)) }
{
    match next {
        NextRun::Leave => Ok(()),
        NextRun::At(moment) => put(members, alloc, "next", Value::from(moment)),
        NextRun::Clear => put(members, alloc, "next", Value::Null),
    }
}

fn backoff_value(alloc: Global, backoff: Backoff) -> Result<Value, AllocError>
    ensures { IfOk result (λ value. view value ≡ backoff_json backoff) }
{
    json!(in alloc; {"delay": backoff.delay, "policy": backoff_name(backoff.policy)})
}

fn constraints_value(alloc: Global, constraints: Constraints) -> Result<Value, AllocError>
    ensures { IfOk result (λ value. view value ≡ constraints_json constraints) }
{
    json!(in alloc; {
        "battery_not_low": constraints.battery_not_low,
        "charging": constraints.charging,
        "idle": constraints.idle,
        "network": network_name(constraints.network),
        "storage_not_low": constraints.storage_not_low
    })
}

/// The JSON of Data. Memory that is refused is the only error.
fn data_value(alloc: Global, told: &Data) -> Result<Value, AllocError>
    ensures { IfOk result (λ value. view value ≡ data_json told.now) }
{
    told.to_json(alloc).map_err(|_| AllocError)
}
