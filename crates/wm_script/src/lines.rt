//! The lines of a script as commands.
ghost use Rattle.std.specs.Prelude.{◌≡◌, ◌==◌, position, ◌∷◌, ◌<◌, ◌≤◌, length, option_map, Err, IfOk, IfErr, None, Ok, OnErr, OnOk, Some};
ghost use Rattle.std.specs.List.{AllByRecursion};
ghost use Rattle.serde_json.specs.View.{view};
ghost use Rattle.wm_machine.specs.Outcome.{IsAskable};
ghost use Rattle.wm_script.specs.Limits.{first_limit, IsFaultOf as IsScriptFaultOf};
ghost use Rattle.wm_script.specs.Lines.{alone, asked_by, asked_in, cancel_of, command_of, commands_in, conditions_of, cut, enqueue_of, force_at, id_under, is_of_all, moment_of, named_command, observe_of, one_key, prune_of, query_of, retire_of, target_of, text_under, update_of, value_of, whole_under};
ghost use Rattle.wm_script.specs.Parts.{IsFaultOf};

use crate::batches::batch_in;
use crate::conditions::conditions_in;
use crate::limits::{Limit, ScriptFault, first_limit};
use crate::names::named_by;
use crate::objects::has_only;
use crate::parts::{Unread, formed};
use crate::queries::query_in;
use crate::requests::request_in;
use crate::values::{id_in, short_in, whole_in};
use serde_json::Value;
use std::alloc::{AllocError, Global};
use uuid::Uuid;
use wm_collections::{Items, Text};
use wm_machine::{Command, LineFault, Target};

/// The byte that ends a line.
const LF: u8 = b'\n';

/// The commands of a script's lines, in their order: one for each line. A line that isn't in the
/// grammar, or whose works have a fault, gives a [`Command::Faulty`].
///
/// `TooLong` with the first limit that the script passes, and nothing of it is read. The empty
/// script has no line, and takes no memory.
pub fn read_lines(alloc: Global, bytes: &[u8]) -> Result<Items<Command>, ScriptFault>
    ensures commands { IfOk result (λ commands. commands ≡ commands_in bytes.now) }
    ensures within { OnOk result (first_limit bytes.now ≡ None) }
    ensures too_long { (limit : Limit) → first_limit bytes.now ≡ Some limit
        → result ≡ Err (ScriptFault.TooLong limit) }
    ensures fault { IfErr result (IsScriptFaultOf bytes.now) }

    // What follows of the commands.
    ensures askable { IfOk result (λ commands. AllByRecursion IsAskable commands) }
    ensures few { IfOk result (λ commands. length commands ≤ length bytes.now) }
{
    if let Some(limit) = first_limit(bytes) {
        return Err(ScriptFault::TooLong(limit));
    }
    match commands_in(alloc, bytes) {
        Ok(commands) => Ok(commands),
        Err(_refused) => Err(ScriptFault::Memory),
    }
}

/// The commands of lines, in their order. Where there is no line it takes no memory.
fn commands_in(alloc: Global, bytes: &[u8]) -> Result<Items<Command>, AllocError>
    ensures commands { IfOk result (λ commands. commands ≡ commands_in bytes.now) }
    ensures some { OnErr result (0 < length bytes.now) }
    ensures few { IfOk result (λ commands. length commands ≤ length bytes.now) }
{
    let mut commands = Items::new(alloc);
    let mut rest = bytes;
    'lines: while !rest.is_empty() {
        let (line, others) = first_line(rest);
        commands.push(command_of(alloc, line)?)?;
        rest = others;
    }
    Ok(commands)
}

/// The first line of some bytes, without its LF, and what stands after that LF; a last line without
/// LF counts. It takes no memory.
#[tactic(auto, using(crate::proofs::LinesLemmas::line_ends))]
pub fn first_line(bytes: &[u8]) -> (&[u8], &[u8])
    requires { 0 < length bytes.now }
    ensures cut { cut bytes.now ≡ result.0.now ∷ cut result.1.now }
    ensures shorter { length result.1.now < length bytes.now }
{
    match find_lf(bytes) {
        Some(end) => (&bytes[..end], &bytes[end + 1..]),
        None => (bytes, &[]),
    }
}

/// The index of the first LF.
fn find_lf(bytes: &[u8]) -> Option<usize>
    ensures { result ≡ position (λ byte. byte == LF) bytes.now }
{
    bytes.iter().position(|byte| *byte == LF)
}

/// The command of a line, which is given without its LF: one that isn't in the grammar, or whose works
/// have a fault, gives a [`Command::Faulty`]. Memory that is refused is the only error.
#[tactic(auto, unfolding(crate::specs::Lines::command_of))]
pub fn command_of(alloc: Global, line: &[u8]) -> Result<Command, AllocError>
    ensures { IfOk result (λ command. command ≡ command_of line.now) }
{
    match asked_in(alloc, line) {
        Ok(command) => Ok(command),
        Err(Unread::Form) => Ok(Command::Faulty(LineFault::Bad)),
        Err(Unread::Fault(fault)) => Ok(Command::Faulty(fault)),
        Err(Unread::Memory) => Err(AllocError),
    }
}

/// What a line asks for.
fn asked_in(alloc: Global, line: &[u8]) -> Result<Command, Unread>
    ensures ok { IfOk result (λ command. asked_in line.now ≡ Ok command) }
    ensures err { IfErr result (IsFaultOf (asked_in line.now)) }
{
    match value_of(alloc, line)? {
        Some(value) => asked_by(alloc, &value),
        None => Err(Unread::Form),
    }
}

/// The JSON value of a line, if it has one. Memory that is refused is the only error.
#[tactic(auto, using(crate::proofs::LinesLemmas::values))]
pub fn value_of(alloc: Global, line: &[u8]) -> Result<Option<Value>, AllocError>
    ensures { IfOk result (λ value. option_map view value ≡ value_of line.now) }
{
    match Value::from_slice(alloc, line) {
        Ok(value) => Ok(Some(value)),
        Err(error) => {
            if error.is_memory() {
                Err(AllocError)
            } else {
                Ok(None)
            }
        }
    }
}

/// The command that a value asks for.
#[tactic(auto, unfolding(crate::specs::Lines::asked_by))]
fn asked_by(alloc: Global, value: &Value) -> Result<Command, Unread>
    ensures ok { IfOk result (λ command. asked_by (view value.now) ≡ Ok command) }
    ensures err { IfErr result (IsFaultOf (asked_by (view value.now))) }
{
    match value.get("cmd").and_then(Value::as_str) {
        Some(name) => named_command(alloc, name, value),
        None => Err(Unread::Form),
    }
}

/// The command of this name that a value asks for, by the reader of that command.
fn named_command(alloc: Global, name: &str, value: &Value) -> Result<Command, Unread>
    ensures ok { IfOk result (λ command. named_command name.now (view value.now) ≡ Ok command) }
    ensures err { IfErr result (IsFaultOf (named_command name.now (view value.now))) }
{
    match name {
        "enqueue" => enqueue_of(alloc, value),
        "cancel" => cancel_of(alloc, value),
        "update" => update_of(alloc, value),
        "moment" => moment_of(value),
        "conditions" => conditions_of(value),
        "prune" => prune_of(value),
        "settle" => alone(Command::Settle, value),
        "hush" => alone(Command::Hush, value),
        "summary" => alone(Command::Summary, value),
        "query" => query_of(alloc, value),
        "retire" => retire_of(alloc, value),
        "observe" => observe_of(alloc, value),
        _ => Err(Unread::Form),
    }
}

/// A command, where it has no further key.
fn alone(command: Command, value: &Value) -> Result<Command, Unread>
    ensures { result ≡ alone command (view value.now) }
{
    formed(has_only(value, &["cmd"]).then_some(command))
}

/// The value of the one further key that a command has.
#[tactic(auto, unfolding(crate::specs::Lines::one_key))]
fn one_key<'v>(value: &'v Value, key: &str) -> Option<&'v Value>
    ensures { option_map (λ found. view found.now) result ≡ one_key key.now (view value.now) }
{
    if has_only(value, &["cmd", key]) {
        value.get(key)
    } else {
        None
    }
}

/// An id under the one further key.
#[tactic(auto, unfolding(crate::specs::Lines::id_under))]
pub fn id_under(value: &Value, key: &str) -> Option<Uuid>
    ensures { result ≡ id_under key.now (view value.now) }
{
    id_in(one_key(value, key)?)
}

/// A text of 1 to 200 bytes under the one further key.
#[tactic(auto, unfolding(crate::specs::Lines::text_under))]
fn text_under<'v>(value: &'v Value, key: &str) -> Option<&'v str>
    ensures { option_map (λ text. text.now) result ≡ text_under key.now (view value.now) }
{
    short_in(one_key(value, key)?)
}

/// A number of milliseconds under the one further key.
#[tactic(auto, unfolding(crate::specs::Lines::whole_under))]
fn whole_under(value: &Value, key: &str) -> Option<u64>
    ensures { result ≡ whole_under key.now (view value.now) }
{
    whole_in(one_key(value, key)?)
}

/// The command that enqueues works, under a name or none.
#[tactic(auto, unfolding(crate::specs::Lines::enqueue_of))]
fn enqueue_of(alloc: Global, value: &Value) -> Result<Command, Unread>
    ensures ok { IfOk result (λ command. enqueue_of (view value.now) ≡ Ok command) }
    ensures err { IfErr result (IsFaultOf (enqueue_of (view value.now))) }
{
    if !has_only(value, &["cmd", "layers", "name", "policy", "works"]) {
        return Err(Unread::Form);
    }
    let named = named_by(alloc, value.get("name"), value.get("policy"))?;
    let batch = batch_in(alloc, value.get("works"), value.get("layers"))?;
    Ok(Command::Enqueue { named, batch })
}

/// The command that cancels works.
fn cancel_of(alloc: Global, value: &Value) -> Result<Command, Unread>
    ensures ok { IfOk result (λ command. cancel_of (view value.now) ≡ Ok command) }
    ensures err { IfErr result (IsFaultOf (cancel_of (view value.now))) }
{
    match target_of(alloc, value)? {
        Some(target) => Ok(Command::Cancel(target)),
        None => Err(Unread::Form),
    }
}

/// Which works a cancel is for: its one further key is `id`, `tag`, `name` or `all`.
#[tactic(auto, unfolding(crate::specs::Lines::target_of))]
fn target_of(alloc: Global, value: &Value) -> Result<Option<Target>, AllocError>
    ensures { IfOk result (λ target. target ≡ target_of (view value.now)) }
{
    if let Some(id) = id_under(value, "id") {
        return Ok(Some(Target::Id(id)));
    }
    if let Some(tag) = text_under(value, "tag") {
        return Ok(Some(Target::Tag(Text::from_str(alloc, tag)?)));
    }
    if let Some(name) = text_under(value, "name") {
        return Ok(Some(Target::Name(Text::from_str(alloc, name)?)));
    }
    if is_of_all(value) {
        Ok(Some(Target::All))
    } else {
        Ok(None)
    }
}

/// Whether a cancel is of all: its one further key is `all`, which is true.
#[tactic(auto, unfolding(crate::specs::Lines::is_of_all))]
fn is_of_all(value: &Value) -> bool
    ensures { result ≡ is_of_all (view value.now) }
{
    match one_key(value, "all") {
        Some(all) => all.as_bool().unwrap_or(false),
        None => false,
    }
}

/// The command that updates a work.
#[tactic(auto, unfolding(crate::specs::Lines::update_of))]
fn update_of(alloc: Global, value: &Value) -> Result<Command, Unread>
    ensures ok { IfOk result (λ command. update_of (view value.now) ≡ Ok command) }
    ensures err { IfErr result (IsFaultOf (update_of (view value.now))) }
{
    match one_key(value, "work") {
        Some(work) => Ok(Command::Update(request_in(alloc, work)?)),
        None => Err(Unread::Form),
    }
}

/// The command that prunes. It may have the further key `force`.
#[tactic(auto, unfolding(crate::specs::Lines::prune_of))]
fn prune_of(value: &Value) -> Result<Command, Unread>
    ensures { result ≡ prune_of (view value.now) }
{
    if !has_only(value, &["cmd", "force"]) {
        return Err(Unread::Form);
    }
    match force_at(value.get("force")) {
        Some(force) => Ok(Command::Prune { force }),
        None => Err(Unread::Form),
    }
}

/// Whether a prune is by force, where it says so at all: then it is true.
#[tactic(auto, unfolding(crate::specs::Lines::force_at))]
fn force_at(value: Option<&Value>) -> Option<bool>
    ensures { result ≡ force_at (option_map (λ found. view found.now) value.entry) }
{
    match value {
        Some(value) => value.as_bool().unwrap_or(false).then_some(true),
        None => Some(false),
    }
}

/// The command that sets the moment.
fn moment_of(value: &Value) -> Result<Command, Unread>
    ensures { result ≡ moment_of (view value.now) }
{
    formed(whole_under(value, "at").map(Command::Moment))
}

/// The command that sets all conditions.
fn conditions_of(value: &Value) -> Result<Command, Unread>
    ensures { result ≡ conditions_of (view value.now) }
{
    formed(conditions_in(value).map(Command::Conditions))
}

/// The command that queries works.
fn query_of(alloc: Global, value: &Value) -> Result<Command, Unread>
    ensures ok { IfOk result (λ command. query_of (view value.now) ≡ Ok command) }
    ensures err { IfErr result (IsFaultOf (query_of (view value.now))) }
{
    Ok(Command::Query(query_in(alloc, value)?))
}

/// The command that retires a class of workers.
fn retire_of(alloc: Global, value: &Value) -> Result<Command, Unread>
    ensures ok { IfOk result (λ command. retire_of (view value.now) ≡ Ok command) }
    ensures err { IfErr result (IsFaultOf (retire_of (view value.now))) }
{
    match text_under(value, "class") {
        Some(class) => Ok(Command::Retire(Text::from_str(alloc, class)?)),
        None => Err(Unread::Form),
    }
}

/// The command that observes works, which has the keys of a query.
fn observe_of(alloc: Global, value: &Value) -> Result<Command, Unread>
    ensures ok { IfOk result (λ command. observe_of (view value.now) ≡ Ok command) }
    ensures err { IfErr result (IsFaultOf (observe_of (view value.now))) }
{
    Ok(Command::Observe(query_in(alloc, value)?))
}
