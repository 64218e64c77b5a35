//! How a request is built, and why one isn't, of `wm_request`.
ghost use Rattle.std.specs.Prelude.{◌≡◌, true};
ghost use Rattle.wm_request.specs.Requests.{IsShortText};

use crate::conditions::{constraints, constraints_told};
use crate::data::merger;
use crate::told::{Told, id as id_told, list, string};
use case_files::fields::{
    RowFault, both, count, data, given, has_only, id, items, letters, number, number_if, text,
    unless_refused,
};
use case_files::names::{backoff_policy_name, backoff_policy_named, merger_name};
use serde_json::Value;
use std::alloc::{AllocError, Global};
use uuid::Uuid;
use wm_collections::Replica;
use wm_conditions::Constraints;
use wm_data::Merger;
use wm_request::{Builder, Request, RequestFault};
use wm_schedule::{Backoff, BackoffPolicy};

/// The keys of a request.
const KEYS: [&str; 12] = [
    "id",
    "class",
    "input",
    "merger",
    "tags",
    "constraints",
    "policy",
    "delay",
    "initial_delay",
    "period",
    "flex",
    "keep",
];

/// A backoff that is asked for.
fn backoff_if(row: &Value) -> Result<Option<(BackoffPolicy, u64)>, RowFault> {
    if row.get("policy").is_none() {
        return Ok(None);
    }
    let policy = backoff_policy_named(text(row, "policy")?).ok_or(RowFault::Value)?;
    Ok(Some((policy, number(row, "delay")?)))
}

/// The merger of a row, where it has one.
fn merger_if(row: &Value) -> Result<Option<Merger>, RowFault> {
    match row.get("merger") {
        Some(_) => Ok(Some(merger(row)?)),
        None => Ok(None),
    }
}

/// The constraints of a row, where it has any.
fn constraints_if(row: &Value) -> Result<Option<Constraints>, RowFault> {
    match row.get("constraints") {
        Some(value) => Ok(Some(constraints(value)?)),
        None => Ok(None),
    }
}

/// A builder of one-time work, or of periodic work where there is a period.
pub fn begin(
    alloc: Global,
    id: Uuid,
    class: String,
    period: Option<u64>,
    flex: Option<u64>,
) -> Builder {
    match period {
        Some(period) => Builder::periodic(alloc, id, class, period, flex),
        None => Builder::one_time(alloc, id, class),
    }
}

/// A builder of the work of a row, which is periodic where the row has a period.
fn begun(alloc: Global, row: &Value) -> Result<Builder, RowFault> {
    let id = id(row, "id")?;
    let period = number_if(row, "period")?;
    let flex = number_if(row, "flex")?;
    let class = String::from_str(alloc, text(row, "class")?)?;
    Ok(begin(alloc, id, class, period, flex))
}

/// Sets what a row has beside the input and the tags.
fn set_plain(builder: &mut Builder, row: &Value) -> Result<(), RowFault> {
    if let Some(merger) = merger_if(row)? {
        builder.merger(merger);
    }
    if let Some(constraints) = constraints_if(row)? {
        builder.constraints(constraints);
    }
    if let Some((policy, delay)) = backoff_if(row)? {
        builder.backoff(policy, delay);
    }
    if let Some(delay) = number_if(row, "initial_delay")? {
        builder.initial_delay(delay);
    }
    if let Some(keep) = number_if(row, "keep")? {
        builder.keep(keep);
    }
    Ok(())
}

/// Whether a text has 1 to 200 bytes.
fn is_short(text: &str) -> bool
    ensures { result ≡ true → IsShortText text.now }
{
    !text.is_empty() && text.len() <= 200
}

/// Adds a tag, which has 1 to 200 bytes.
fn add_tag(builder: &mut Builder, tag: String) -> Result<(), RowFault> {
    if !is_short(tag.as_str()) {
        return Err(RowFault::Value);
    }
    unless_refused(builder.tag(tag))
}

/// Sets the input, and adds the tags one after another.
fn set_owned(alloc: Global, builder: &mut Builder, row: &Value) -> Result<(), RowFault> {
    builder.input(data(alloc, row, "input")?);
    for item in items(row, "tags")? {
        add_tag_in(alloc, builder, item)?;
    }
    Ok(())
}

/// Adds the tag that a value is.
fn add_tag_in(alloc: Global, builder: &mut Builder, item: &Value) -> Result<(), RowFault> {
    let tag = item.as_str().ok_or(RowFault::Value)?;
    add_tag(builder, String::from_str(alloc, tag)?)
}

/// Sets all that a row has.
fn set_all(alloc: Global, builder: &mut Builder, row: &Value) -> Result<(), RowFault> {
    set_plain(builder, row)?;
    set_owned(alloc, builder, row)
}

/// The builder with all that a row has.
fn builder(alloc: Global, row: &Value) -> Result<Builder, RowFault> {
    let mut builder = begun(alloc, row)?;
    let set = set_all(alloc, &mut builder, row);
    let (builder, ()) = both(builder, set)?;
    Ok(builder)
}

/// The request that a value says.
pub fn request(alloc: Global, value: &Value) -> Result<Request, RowFault> {
    let builder = builder(alloc, value)?;
    given(builder.build())
}

/// What a request is built of: the fields of a replica of it, or the fault.
pub fn built(alloc: Global, row: &Value) -> Result<Value, RowFault> {
    has_only(row, &KEYS)?;
    let builder = builder(alloc, row)?;
    unless_refused(built_told(alloc, builder.build()))
}

/// The fields of a replica of a request, or the fault.
fn built_told(alloc: Global, built: Result<Request, RequestFault>) -> Result<Value, AllocError> {
    match built {
        Ok(request) => replica_told(alloc, &request),
        Err(fault) => fault_told(alloc, fault),
    }
}

/// A fault by its name.
fn fault_told(alloc: Global, fault: RequestFault) -> Result<Value, AllocError> {
    match fault {
        RequestFault::NoClass => string(alloc, "NoClass"),
        RequestFault::TooManyTags => string(alloc, "TooManyTags"),
        RequestFault::DelayTooLong => string(alloc, "DelayTooLong"),
        RequestFault::Memory => Err(AllocError),
    }
}

/// The fields of a replica of a request.
fn replica_told(alloc: Global, request: &Request) -> Result<Value, AllocError> {
    let copy = request.replica(alloc)?;
    request_told(alloc, &copy)
}

/// The fields of a request.
fn request_told(alloc: Global, request: &Request) -> Result<Value, AllocError> {
    let mut told = Told::new(alloc);
    told.put("id", id_told(alloc, request.id()));
    told.text("class", request.class().as_str());
    told.data("input", request.input());
    told.text("merger", merger_name(request.merger()));
    told.put("tags", list(alloc, request.tags().as_slice()));
    told.put(
        "constraints",
        constraints_told(alloc, &request.constraints()),
    );
    put_times(&mut told, request);
    told.into_value()
}

/// The delays of a request.
fn put_times(told: &mut Told, request: &Request) {
    let Backoff { policy, delay } = request.backoff();
    told.text("policy", backoff_policy_name(policy));
    told.number("delay", delay);
    told.number("initial_delay", request.initial_delay());
    told.number("keep", request.keep());
    if let Some(period) = request.period() {
        told.number("period", period.period);
        told.number("flex", period.flex);
    }
}

/// Adds so many tags, the longest first.
fn add_tags(alloc: Global, builder: &mut Builder, count: usize) -> Result<(), RowFault> {
    for fewer in 0..count {
        add_tag(builder, letters(alloc, count.saturating_sub(fewer))?)?;
    }
    Ok(())
}

/// A builder with a class of so many letters, and such an initial delay and keeping time.
fn of_letters(alloc: Global, row: &Value) -> Result<Builder, RowFault> {
    let period = number_if(row, "period")?;
    let delay = number(row, "initial_delay")?;
    let class = letters(alloc, count(row, "class")? as usize)?;
    let mut builder = begin(alloc, Uuid::from_u128(7), class, period, None);
    builder.initial_delay(delay);
    builder.keep(number(row, "keep")?);
    Ok(builder)
}

/// Why a request isn't built that has a class of so many letters and so many tags; none where it is.
pub fn limits(alloc: Global, row: &Value) -> Result<Value, RowFault> {
    has_only(row, &["class", "tags", "initial_delay", "period", "keep"])?;
    let tags = count(row, "tags")? as usize;
    let mut builder = of_letters(alloc, row)?;
    let added = add_tags(alloc, &mut builder, tags);
    let (builder, ()) = both(builder, added)?;
    match builder.build().err() {
        Some(fault) => unless_refused(fault_told(alloc, fault)),
        None => unless_refused(string(alloc, "built")),
    }
}
