//! The events of a log in words, as cases tell them.

use crate::names::{backoff_policy_name, flags};
use std::alloc::{AllocError, Global};
use uuid::Uuid;
use wm_collections::Text;
use wm_conditions::{Conditions, Constraints, Network};
use wm_data::{Data, Merger};
use wm_machine::{
    Applied, Cause, Command, Counts, End, Event, LineFault, Policy, Refusal, Reply, Shown, Target,
    UniqueName, WorkInfo, WorkQuery,
};
use wm_request::{Batch, NextRun, Request};
use wm_schedule::{Backoff, Period};

/// Data of more bytes is told by its size alone.
const MAX_TOLD_BYTES: u64 = 1_000;

/// An event in words.
pub fn event_words(alloc: Global, event: &Event) -> Result<String, AllocError> {
    match event {
        Event::Command {
            line,
            command,
            reply,
        } => {
            let command = command_words(alloc, command.value())?;
            let reply = reply_words(alloc, reply)?;
            format!(in alloc; "line {line}: {command}: {reply}")
        }
        Event::Start {
            run,
            seq,
            instance,
            input,
        } => {
            let input = data_words(alloc, input)?;
            format!(in alloc; "start of run {run}: work {seq} on instance {instance} with {input}")
        }
        Event::StartFailed { seq, cause } => {
            let cause = cause_words(alloc, cause)?;
            format!(in alloc; "no start: work {seq}: {cause}")
        }
        Event::Turn { run, progress } => turn_words(alloc, *run, progress),
        Event::Finish { run, end } => {
            let end = end_words(alloc, end)?;
            format!(in alloc; "end of run {run}: {end}")
        }
        Event::TimedOut { run } => format!(in alloc; "time-out of run {run}"),
        Event::Late { run } => format!(in alloc; "late report of run {run}"),
    }
}

fn command_words(alloc: Global, command: &Command) -> Result<String, AllocError> {
    match command {
        Command::Enqueue { named, batch } => enqueue_words(alloc, named, batch),
        Command::Cancel(target) => cancel_words(alloc, target),
        Command::Update(request) => {
            let work = work_words(alloc, request)?;
            format!(in alloc; "update {work}")
        }
        Command::Moment(at) => format!(in alloc; "moment {at}"),
        Command::Conditions(conditions) => conditions_words(alloc, conditions),
        Command::Prune { force: false } => String::from_str(alloc, "prune"),
        Command::Prune { force: true } => String::from_str(alloc, "prune by force"),
        Command::Query(query) => query_words(alloc, "query", query),
        Command::Observe(query) => query_words(alloc, "observe", query),
        Command::Retire(class) => {
            let class = class.as_str();
            format!(in alloc; "retire {class:?}")
        }
        Command::Settle => String::from_str(alloc, "settle"),
        Command::Hush => String::from_str(alloc, "hush"),
        Command::Summary => String::from_str(alloc, "summary"),
        Command::Faulty(fault) => {
            let fault = fault_words(alloc, fault)?;
            format!(in alloc; "faulty {fault}")
        }
    }
}

/// A cancel, with what it is for.
fn cancel_words(alloc: Global, target: &Target) -> Result<String, AllocError> {
    match target {
        Target::Id(id) => format!(in alloc; "cancel {id}"),
        Target::Tag(tag) => {
            let tag = tag.as_str();
            format!(in alloc; "cancel tag {tag:?}")
        }
        Target::Name(name) => {
            let name = name.as_str();
            format!(in alloc; "cancel name {name:?}")
        }
        Target::All => String::from_str(alloc, "cancel all"),
    }
}

/// A command that has a query, with each group that it names.
fn query_words(alloc: Global, command: &str, query: &WorkQuery) -> Result<String, AllocError> {
    let mut words = String::from_str(alloc, command)?;
    if !query.ids.is_empty() {
        words.push_str(" ids")?;
    }
    for id in query.ids.as_slice() {
        words.push_str(format!(in alloc; " {id}")?.as_str())?;
    }
    add_texts(alloc, &mut words, "names", query.names.as_slice())?;
    add_states(&mut words, query.states.as_slice())?;
    add_texts(alloc, &mut words, "tags", query.tags.as_slice())?;
    Ok(words)
}

/// Adds texts under the name of their group, where there are any.
fn add_texts(
    alloc: Global,
    words: &mut String,
    group: &str,
    texts: &[Text],
) -> Result<(), AllocError> {
    let mut all = Vec::new(alloc);
    for text in texts {
        all.push(text.as_str())?;
    }
    if !all.is_empty() {
        words.push_str(format!(in alloc; " {group} {all:?}")?.as_str())?;
    }
    Ok(())
}

/// Adds the states of a query, where it names any.
fn add_states(words: &mut String, states: &[Shown]) -> Result<(), AllocError> {
    if !states.is_empty() {
        words.push_str(" states")?;
    }
    for state in states {
        words.push(' ')?;
        words.push_str(state_name(*state))?;
    }
    Ok(())
}

fn state_name(state: Shown) -> &'static str {
    match state {
        Shown::Enqueued => "ENQUEUED",
        Shown::Running => "RUNNING",
        Shown::Succeeded => "SUCCEEDED",
        Shown::Failed => "FAILED",
        Shown::Blocked => "BLOCKED",
        Shown::Cancelled => "CANCELLED",
    }
}

/// An enqueue with its unique name where it has one, and its works, each with the ids of those that
/// it is after.
fn enqueue_words(
    alloc: Global,
    named: &Option<UniqueName>,
    batch: &Batch,
) -> Result<String, AllocError> {
    let mut words = String::from_str(alloc, "enqueue")?;
    add_name(alloc, &mut words, named)?;
    for (index, node) in batch.works().as_slice().iter().enumerate() {
        let work = work_words(alloc, &node.request)?;
        words.push_str(if index == 0 { " " } else { ", " })?;
        words.push_str(work.as_str())?;
        add_after(alloc, &mut words, node.after.as_slice())?;
    }
    Ok(words)
}

/// Adds a unique name with its policy, where there is one.
fn add_name(
    alloc: Global,
    words: &mut String,
    named: &Option<UniqueName>,
) -> Result<(), AllocError> {
    if let Some(unique) = named {
        let name = unique.name.as_str();
        let policy = policy_name(unique.policy);
        words.push_str(format!(in alloc; " {name:?} {policy}")?.as_str())?;
    }
    Ok(())
}

fn policy_name(policy: Policy) -> &'static str {
    match policy {
        Policy::Keep => "KEEP",
        Policy::Replace => "REPLACE",
        Policy::Append => "APPEND",
        Policy::AppendOrReplace => "APPEND_OR_REPLACE",
        Policy::CancelAndReenqueue => "CANCEL_AND_REENQUEUE",
        Policy::Update => "UPDATE",
    }
}

/// Adds the ids of the works that a work is after where there are any.
fn add_after(alloc: Global, words: &mut String, after: &[Uuid]) -> Result<(), AllocError> {
    if !after.is_empty() {
        words.push_str(" after")?;
    }
    for id in after {
        words.push_str(format!(in alloc; " {id}")?.as_str())?;
    }
    Ok(())
}

/// The id and the class of a work, and each of its other fields that isn't the default.
fn work_words(alloc: Global, request: &Request) -> Result<String, AllocError> {
    let id = request.id();
    let class = request.class().as_str();
    let mut words = format!(in alloc; "{id} {class:?}")?;
    if !request.input().is_empty() {
        words.push(' ')?;
        words.push_str(data_words(alloc, request.input())?.as_str())?;
    }
    if request.merger() == Merger::ArrayCreating {
        words.push_str(" ARRAY")?;
    }
    add_texts(alloc, &mut words, "tags", request.tags().as_slice())?;
    add_constraints(&mut words, request.constraints())?;
    add_delays(alloc, &mut words, request)?;
    add_period(alloc, &mut words, request)?;
    add_next(alloc, &mut words, request)?;
    add_keeping(alloc, &mut words, request)?;
    Ok(words)
}

/// Adds the constraints of a work where it has any.
fn add_constraints(words: &mut String, constraints: Constraints) -> Result<(), AllocError> {
    if constraints == Constraints::NONE {
        return Ok(());
    }
    words.push_str(" constraints")?;
    let network = constraints.network;
    add_names(
        words,
        &[
            ("CONNECTED", network == Network::Connected),
            ("UNMETERED", network == Network::Unmetered),
            ("NOT_ROAMING", network == Network::NotRoaming),
            ("METERED", network == Network::Metered),
            ("charging", constraints.charging),
            ("idle", constraints.idle),
            ("battery_not_low", constraints.battery_not_low),
            ("storage_not_low", constraints.storage_not_low),
        ],
    )
}

/// Adds the backoff and the initial delay of a work where they aren't the defaults.
fn add_delays(alloc: Global, words: &mut String, request: &Request) -> Result<(), AllocError> {
    let backoff = request.backoff();
    if backoff != Backoff::DEFAULT {
        let policy = backoff_policy_name(backoff.policy);
        let delay = backoff.delay;
        words.push_str(format!(in alloc; " backoff {policy} {delay}")?.as_str())?;
    }
    let delay = request.initial_delay();
    if delay > 0 {
        words.push_str(format!(in alloc; " delay {delay}")?.as_str())?;
    }
    Ok(())
}

/// Adds the period and the flex interval of a work where it is periodic.
fn add_period(alloc: Global, words: &mut String, request: &Request) -> Result<(), AllocError> {
    if let Some(Period { period, flex }) = request.period() {
        words.push_str(format!(in alloc; " period {period} flex {flex}")?.as_str())?;
    }
    Ok(())
}

/// Adds what a work asks of its next run, where it asks anything.
fn add_next(alloc: Global, words: &mut String, request: &Request) -> Result<(), AllocError> {
    match request.next() {
        NextRun::Leave => {}
        NextRun::At(moment) => words.push_str(format!(in alloc; " next {moment}")?.as_str())?,
        NextRun::Clear => words.push_str(" next cleared")?,
    }
    Ok(())
}

/// Adds the keeping time of a work where it has one.
fn add_keeping(alloc: Global, words: &mut String, request: &Request) -> Result<(), AllocError> {
    let keep = request.keep();
    if keep > 0 {
        words.push_str(format!(in alloc; " keep {keep}")?.as_str())?;
    }
    Ok(())
}

/// The conditions that hold.
fn conditions_words(alloc: Global, conditions: &Conditions) -> Result<String, AllocError> {
    let mut words = String::from_str(alloc, "conditions")?;
    if *conditions == Conditions::OPENING {
        words.push_str(" none")?;
    }
    add_names(&mut words, &flags(conditions))?;
    Ok(words)
}

/// Adds the names of those that hold.
fn add_names(words: &mut String, names: &[(&str, bool)]) -> Result<(), AllocError> {
    for (name, holds) in names {
        if *holds {
            words.push(' ')?;
            words.push_str(name)?;
        }
    }
    Ok(())
}

fn fault_words(alloc: Global, fault: &LineFault) -> Result<String, AllocError> {
    match fault {
        LineFault::BadData { key } => {
            let key = key.as_str();
            format!(in alloc; "BadData {key:?}")
        }
        LineFault::TooLarge { size } => format!(in alloc; "TooLarge {size}"),
        LineFault::IdTwice { id } => format!(in alloc; "IdTwice {id}"),
        LineFault::PeriodicInChain { id } => format!(in alloc; "PeriodicInChain {id}"),
        _ => format!(in alloc; "{fault:?}"),
    }
}

fn cause_words(alloc: Global, cause: &Cause) -> Result<String, AllocError> {
    match cause {
        Cause::NoWorker => String::from_str(alloc, "NoWorker"),
        Cause::Conflict { key } => {
            let key = key.as_str();
            format!(in alloc; "Conflict {key:?}")
        }
        Cause::TooLarge { size } => format!(in alloc; "TooLarge {size}"),
    }
}

fn reply_words(alloc: Global, reply: &Reply) -> Result<String, AllocError> {
    match reply {
        Reply::Enqueued(works) => {
            let works = works.as_slice();
            format!(in alloc; "enqueued {works:?}")
        }
        Reply::Query(infos) => works_words(alloc, infos.as_slice()),
        Reply::Observing { observer, works } => {
            let works = works_words(alloc, works.as_slice())?;
            format!(in alloc; "observing {observer} {works}")
        }
        Reply::Settled => String::from_str(alloc, "settled"),
        Reply::Hushed => String::from_str(alloc, "hushed"),
        Reply::Summary(counts) => summary_words(alloc, counts),
        Reply::Moment => String::from_str(alloc, "moment"),
        Reply::Conditions { stopped } => format!(in alloc; "conditions stopped {stopped}"),
        Reply::Cancelled(count) => format!(in alloc; "cancelled {count}"),
        Reply::Kept => String::from_str(alloc, "kept"),
        Reply::Updated { result, generation } => {
            let applied = applied_name(*result);
            format!(in alloc; "updated {applied} generation {generation}")
        }
        Reply::Pruned(count) => format!(in alloc; "pruned {count}"),
        Reply::Retired(dropped) => format!(in alloc; "retired {dropped}"),
        Reply::Refused(refusal) => {
            let refusal = refusal_words(alloc, refusal)?;
            format!(in alloc; "refused {refusal}")
        }
    }
}

/// The numbers of the works that are told.
fn works_words(alloc: Global, infos: &[WorkInfo]) -> Result<String, AllocError> {
    let mut works = Vec::new(alloc);
    for info in infos {
        works.push(info.seq)?;
    }
    format!(in alloc; "works {works:?}")
}

/// How many works are in each state that has any, and the sum of their attempts.
fn summary_words(alloc: Global, counts: &Counts) -> Result<String, AllocError> {
    let mut words = String::from_str(alloc, "summary")?;
    let states = [
        ("ENQUEUED", counts.enqueued),
        ("RUNNING", counts.running),
        ("SUCCEEDED", counts.succeeded),
        ("FAILED", counts.failed),
        ("BLOCKED", counts.blocked),
        ("CANCELLED", counts.cancelled),
    ];
    for (state, count) in &states {
        if *count > 0 {
            words.push_str(format!(in alloc; " {state} {count}")?.as_str())?;
        }
    }
    let attempts = counts.attempts;
    words.push_str(format!(in alloc; " attempts {attempts}")?.as_str())?;
    Ok(words)
}

fn applied_name(applied: Applied) -> &'static str {
    match applied {
        Applied::NotApplied => "NOT_APPLIED",
        Applied::Immediately => "APPLIED_IMMEDIATELY",
        Applied::ForNextRun => "APPLIED_FOR_NEXT_RUN",
    }
}

fn refusal_words(alloc: Global, refusal: &Refusal) -> Result<String, AllocError> {
    match refusal {
        Refusal::Line(fault) => fault_words(alloc, fault),
        Refusal::MomentBack { now } => format!(in alloc; "MomentBack now {now}"),
        Refusal::NoSuchWork { id } => format!(in alloc; "NoSuchWork {id}"),
        Refusal::KindMismatch { id } => format!(in alloc; "KindMismatch {id}"),
        Refusal::IdInUse { id } => format!(in alloc; "IdInUse {id}"),
        Refusal::NoSuchPrerequisite { id } => format!(in alloc; "NoSuchPrerequisite {id}"),
        Refusal::PeriodicInChain { id } => format!(in alloc; "PeriodicInChain {id}"),
        Refusal::TooManyPrerequisites { id } => format!(in alloc; "TooManyPrerequisites {id}"),
        Refusal::TooManyObservers { count } => format!(in alloc; "TooManyObservers {count}"),
        _ => format!(in alloc; "{refusal:?}"),
    }
}

/// A turn after which a run goes on, with its progress where it told any.
fn turn_words(alloc: Global, run: u64, progress: &Option<Data>) -> Result<String, AllocError> {
    match progress {
        Some(progress) => {
            let progress = data_words(alloc, progress)?;
            format!(in alloc; "turn of run {run}: progress {progress}")
        }
        None => format!(in alloc; "turn of run {run}"),
    }
}

fn end_words(alloc: Global, end: &End) -> Result<String, AllocError> {
    match end {
        End::Success(output) => {
            let output = data_words(alloc, output)?;
            format!(in alloc; "success {output}")
        }
        End::Failure(output) => {
            let output = data_words(alloc, output)?;
            format!(in alloc; "failure {output}")
        }
        End::Retry => String::from_str(alloc, "retry"),
    }
}

/// The canonical text of Data, or its size where it is large.
fn data_words(alloc: Global, data: &Data) -> Result<String, AllocError> {
    if data.size() > MAX_TOLD_BYTES {
        return format!(in alloc; "Data of {} bytes", data.size());
    }
    let text = data.to_text(alloc)?;
    String::from_str(alloc, text.as_str())
}
