//! The spelling of a command.
ghost use Rattle.std.specs.Prelude.{◌≡◌, ◌≤◌, false, IfOk};
ghost use Rattle.serde_json.specs.Data.{depth};
ghost use Rattle.serde_json.specs.View.{view};
ghost use Rattle.serde_json.specs.Written.{has_float};
ghost use Rattle.wm_machine.specs.declared.command.Command.TheVariants.{Update};
ghost use Rattle.wm_machine.specs.declared.command.Target.TheVariants.{Id};
ghost use Rattle.wm_spelling.specs.Commands as commands;

use crate::faults::fault_value;
use crate::names::policy_name;
use crate::queries::query_value;
use crate::spell::{id_value, list_value};
use crate::works::request_value;
use serde_json::{Value, json};
use std::alloc::{AllocError, Global};
use uuid::Uuid;
use wm_collections::Items;
use wm_conditions::Conditions;
use wm_machine::{Command, Target, UniqueName};
use wm_request::{Node, Request};

/// The spelling of a command: the object of its line, with each key that it may have and its value,
/// those with their defaults too. `name` and `policy` stand only where there is a name, `period` and
/// `flex` only for periodic work, `next` only where something is asked of the next run, and `force`
/// only where it is true. The works of an enqueue stand under `works`, each with its `after`. A line
/// that has a fault is spelled by the fault's name under `faulty`.
pub fn spelled(alloc: Global, command: &Command) -> Result<Value, AllocError>
    ensures spelling { IfOk result (λ value. view value ≡ commands.spelled command.now) }
    ensures plain { IfOk result (λ value. has_float (view value) ≡ false) }
    ensures shallow { IfOk result (λ value. depth (view value) ≤ 6) }
{
    command_value(alloc, command)
}

/// The same, of each command.
fn command_value(alloc: Global, command: &Command) -> Result<Value, AllocError>
    ensures { IfOk result (λ value. view value ≡ commands.spelled command.now) }
{
    match command {
        Command::Enqueue { named, batch } => enqueue_value(alloc, named, batch.works()),
        Command::Cancel(target) => cancel_value(alloc, target),
        Command::Update(request) => update_value(alloc, request),
        Command::Moment(at) => json!(in alloc; {"at": *at, "cmd": "moment"}),
        Command::Conditions(conditions) => conditions_value(alloc, *conditions),
        Command::Prune { force } => prune_value(alloc, *force),
        Command::Query(query) => query_value(alloc, "query", query),
        Command::Observe(query) => query_value(alloc, "observe", query),
        Command::Retire(class) => json!(in alloc; {"class": class.as_str(), "cmd": "retire"}),
        Command::Settle => alone_value(alloc, "settle"),
        Command::Hush => alone_value(alloc, "hush"),
        Command::Summary => alone_value(alloc, "summary"),
        Command::Faulty(fault) => fault_value(alloc, fault),
    }
}

/// The works of an enqueue, under a name or none.
fn enqueue_value(
    alloc: Global,
    named: &Option<UniqueName>,
    works: &Items<Node>,
) -> Result<Value, AllocError>
    ensures { IfOk result (λ value. view value ≡ commands.enqueue_json named.now works.now) }
{
    let works = list_value(alloc, works)?;
    match named {
        Some(unique) => named_value(alloc, unique, works),
        None => json!(in alloc; {"cmd": "enqueue", "works": works}),
    }
}

/// An enqueue of works under a name.
fn named_value(alloc: Global, unique: &UniqueName, works: Value) -> Result<Value, AllocError>
    ensures { IfOk result (λ value. view value
        ≡ commands.named_enqueue unique.entry.now (view works)) }
{
    json!(in alloc; {
        "cmd": "enqueue",
        "name": unique.name.as_str(),
        "policy": policy_name(unique.policy),
        "works": works
    })
}

/// A cancel, with which works it is for.
fn cancel_value(alloc: Global, target: &Target) -> Result<Value, AllocError>
    ensures { IfOk result (λ value. view value ≡ commands.cancel_json target.now) }
{
    match target {
        Target::Id(id) => cancel_id_value(alloc, id),
        Target::Tag(tag) => json!(in alloc; {"cmd": "cancel", "tag": tag.as_str()}),
        Target::Name(name) => json!(in alloc; {"cmd": "cancel", "name": name.as_str()}),
        Target::All => json!(in alloc; {"all": true, "cmd": "cancel"}),
    }
}

/// A cancel of the work of an id.
fn cancel_id_value(alloc: Global, id: &Uuid) -> Result<Value, AllocError>
    ensures { IfOk result (λ value. view value ≡ commands.cancel_json (Id id.now)) }
{
    let id = id_value(alloc, id)?;
    json!(in alloc; {"cmd": "cancel", "id": id})
}

/// An update, with the work that it asks for.
fn update_value(alloc: Global, request: &Request) -> Result<Value, AllocError>
    ensures { IfOk result (λ value. view value ≡ commands.spelled (Update request.now)) }
{
    let work = request_value(alloc, request)?;
    json!(in alloc; {"cmd": "update", "work": work})
}

/// All conditions.
fn conditions_value(alloc: Global, conditions: Conditions) -> Result<Value, AllocError>
    ensures { IfOk result (λ value. view value ≡ commands.conditions_json conditions) }
{
    json!(in alloc; {
        "battery_low": conditions.battery_low,
        "charging": conditions.charging,
        "cmd": "conditions",
        "connected": conditions.connected,
        "idle": conditions.idle,
        "metered": conditions.metered,
        "roaming": conditions.roaming,
        "storage_low": conditions.storage_low
    })
}

/// A prune, by force where it is.
fn prune_value(alloc: Global, force: bool) -> Result<Value, AllocError>
    ensures { IfOk result (λ value. view value ≡ commands.prune_json force) }
{
    if force {
        json!(in alloc; {"cmd": "prune", "force": true})
    } else {
        alone_value(alloc, "prune")
    }
}

/// A command without a further key.
fn alone_value(alloc: Global, name: &str) -> Result<Value, AllocError>
    ensures { IfOk result (λ value. view value ≡ commands.alone_json name.now) }
{
    json!(in alloc; {"cmd": name})
}
