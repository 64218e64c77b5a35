//! The request that a work of a line asks for, and the work after those that it names.
ghost use Rattle.std.specs.Prelude.{◌≡◌, Ok, option_map, string_bytes, IfErr, IfOk, OnOk};
ghost use Rattle.std.specs.List.{AllByRecursion};
ghost use Rattle.serde_json.specs.View.{view};
ghost use Rattle.wm_data.specs.Entries.{IsFaultOf as IsDataFaultOf};
ghost use Rattle.wm_request.specs.Building.{built_of, periodic_of, IsFaultOf as IsRequestFaultOf};
ghost use Rattle.wm_request.specs.Requests.{IsShortText};
ghost use Rattle.wm_script.specs.Parts.{IsFaultOf};
ghost use Rattle.wm_script.specs.Requests.{asked_for, input_in, next_of, node_in, request_in, with_tags};
ghost use Rattle.wm_script.specs.Works.{form_of, IsMoment};

use crate::parts::{Part, Unread, formed, list_at};
use crate::works::{PeriodForm, WorkForm, work_of};
use serde_json::Value;
use std::alloc::{AllocError, Global};
use uuid::Uuid;
use wm_collections::{Items, Text};
use wm_data::{Data, DataFault};
use wm_request::{Builder, NextRun, Node, Request, RequestFault};

impl Part for Node {
    ghost use Rattle.wm_script.specs.Requests.{node_in};

    ghost reading = { node_in };

    fn read(alloc: Global, value: &Value) -> Result<Node, Unread> {
        node_in(alloc, value)
    }
}

impl Part for Request {
    ghost use Rattle.wm_script.specs.Requests.{request_in};

    ghost reading = { request_in };

    fn read(alloc: Global, value: &Value) -> Result<Request, Unread> {
        request_in(alloc, value)
    }
}

/// The request of a work that names none that it is after: it hasn't the key `after`.
#[tactic(auto, unfolding(crate::specs::Requests::request_in))]
pub fn request_in(alloc: Global, value: &Value) -> Result<Request, Unread>
    ensures ok { IfOk result (λ request. request_in (view value.now) ≡ Ok request) }
    ensures err { IfErr result (IsFaultOf (request_in (view value.now))) }
{
    if value.get("after").is_some() {
        return Err(Unread::Form);
    }
    let node = node_in(alloc, value)?;
    Ok(node.request)
}

/// A work after those that it names, or its first fault: its form comes first, then its input, then
/// what its request has.
#[tactic(auto, unfolding(crate::specs::Requests::node_in))]
fn node_in(alloc: Global, value: &Value) -> Result<Node, Unread>
    ensures ok { IfOk result (λ node. node_in (view value.now) ≡ Ok node) }
    ensures err { IfErr result (IsFaultOf (node_in (view value.now))) }
{
    let Some(work) = work_of(value) else {
        return Err(Unread::Form);
    };
    let tags = list_at(alloc, value.get("tags"))?;
    let after = list_at(alloc, value.get("after"))?;
    let input = input_in(alloc, work.input)?;
    let request = request_of(alloc, &work, tags, input)?;
    Ok(Node { request, after })
}

/// The Data of an input, which is empty where there is none.
fn input_in(alloc: Global, input: Option<&Value>) -> Result<Data, DataFault>
    ensures ok { IfOk result (λ read. input_in (option_map (λ found. view found.now) input.entry) ≡ Ok read) }
    ensures err { IfErr result (IsDataFaultOf (input_in (option_map (λ found. view found.now) input.entry))) }
{
    match input {
        Some(json) => Data::from_json(alloc, json),
        None => Ok(Data::empty()),
    }
}

/// The request of a work with these tags and this input, or why there is none.
fn request_of(
    alloc: Global,
    work: &WorkForm<'_>,
    tags: Items<Text>,
    input: Data,
) -> Result<Request, RequestFault>
    requires tags { AllByRecursion IsShortText tags }
    requires next { IsMoment (next_of (form_of work.now).period) }
    ensures ok { IfOk result (λ request. built_of (asked_for (form_of work.entry.now) tags input) ≡ Ok request) }
    ensures err { IfErr result (IsRequestFaultOf (built_of (asked_for (form_of work.entry.now) tags input))) }
{
    let class = String::from_str(alloc, work.class)?;
    let mut builder = match work.period {
        Some(form) => periodic(alloc, work.id, class, form),
        None => Builder::one_time(alloc, work.id, class),
    };
    builder.input(input);
    builder.merger(work.merger);
    builder.constraints(work.constraints);
    builder.backoff(work.backoff.policy, work.backoff.delay);
    builder.initial_delay(work.delay);
    builder.keep(work.keep);
    add_tags(&mut builder, tags)?;
    builder.build()
}

/// The builder of a periodic work with this period, its flex interval and what is asked of its next
/// run.
fn periodic(alloc: Global, id: Uuid, class: String, form: PeriodForm) -> Builder
    requires { IsMoment form.next }
    ensures { result ≡ record (periodic_of id (string_bytes class) form.period form.flex) { next = form.next } }
{
    let mut builder = Builder::periodic(alloc, id, class, form.period, form.flex);
    match form.next {
        NextRun::Leave => {}
        NextRun::At(at) => builder.next_at(at),
        NextRun::Clear => builder.clear_next(),
    }
    builder
}

/// Adds tags, one after another.
fn add_tags(builder: &mut Builder, tags: Items<Text>) -> Result<(), AllocError>
    requires { AllByRecursion IsShortText tags }
    ensures { OnOk result (builder.new ≡ record builder.old { tags = with_tags tags builder.old.tags }) }
{
    for tag in tags.into_vec() {
        builder.tag(tag.into_string())?;
    }
    Ok(())
}
