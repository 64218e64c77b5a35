//! The table of `wm_table`, over a keeper that fails at the commits that it is told to.
ghost use Rattle.std.specs.Prelude.{◌≡◌, false, [], Ok, IfOk, IsSome, None};
ghost use Rattle.wm_machine.specs.Opened.{AreFresh};
ghost use Rattle.wm_machine.specs.Outcome.{IsLegalLine};
ghost use Rattle.wm_machine.specs.declared.state.State.{State};
ghost use Rattle.wm_request.specs.Requests.{IsRequest};
ghost use Rattle.wm_roll.specs.Parts.{without};

use part_tests::data::data_of;
use part_tests::requests::within;
use std::alloc::{AllocError, Global};
use std::marker::Brand;
use std::test::Fail;
use uuid::Uuid;
use wm_collections::{Items, Replica, Text, both, one};
use wm_data::{Data, Merger, Value};
use wm_keeper::MemoryKeeper;
use wm_machine::{Cause, Command, How, Instance, Kind, Phase, Record, Reply, Target};
use wm_request::{Batch, Builder, Node, Request};
use wm_roll::Roll;
use wm_stock::{Count, Echo};
use wm_table::{Claim, Mark, Table, TableEnd, Ticket, Trouble, TurnAnswer};
use wm_worker::{Signal, Task, Told, Worker};

/// One idle worker of this kind, of class Echo.
fn one_worker(alloc: Global, kind: Kind) -> Result<Items<Instance>, AllocError>
    ensures { IfOk result AreFresh }
{
    let mut instances = Items::new(alloc);
    instances.push(Instance {
        number: 0,
        class: Text::from_str(alloc, "Echo")?,
        kind,
        out: false,
        retired: false,
    })?;
    Ok(instances)
}

/// So many letters `x`.
fn letters(alloc: Global, count: usize) -> Result<Text, AllocError> {
    let mut text = String::new(alloc);
    for _ in 0..count {
        text.push('x')?;
    }
    Ok(Text::from_string(text))
}

/// The request of one-time work of this class, with this merger and input.
fn request_of(
    alloc: Global,
    class: String,
    merger: Merger,
    input: Data,
) -> Result<Request, AllocError>
    ensures within { IfOk result IsRequest }
    ensures one_time { IfOk result (λ request. request.period ≡ None) }
{
    let mut builder = Builder::one_time(alloc, Uuid::from_u128(1), class);
    builder.merger(merger);
    builder.input(input);
    within(builder.build())
}

/// The request of one-time work of class Echo, with this merger and a text of so many letters under
/// the key `k` as its input.
fn request(alloc: Global, merger: Merger, count: usize) -> Result<Request, AllocError>
    ensures within { IfOk result IsRequest }
    ensures one_time { IfOk result (λ request. request.period ≡ None) }
{
    let input = data_of(alloc, "k", Value::Text(letters(alloc, count)?))?;
    let (input, class) = both(input, String::from_str(alloc, "Echo"))?;
    request_of(alloc, class, merger, input)
}

/// An enqueue of one such work.
fn enqueue(alloc: Global, merger: Merger, count: usize) -> Result<Command, AllocError>
    ensures { IfOk result (λ command. (s : State) → IsLegalLine s command) }
{
    let request = request(alloc, merger, count)?;
    enqueue_of(alloc, request)
}

/// An enqueue of the one-time work of this request.
pub(crate) fn enqueue_of(alloc: Global, request: Request) -> Result<Command, AllocError>
    requires within { IsRequest request }
    requires one_time { request.period ≡ None }
    ensures { IfOk result (λ command. (s : State) → IsLegalLine s command) }
{
    let after = Items::new(alloc);
    let works = one(alloc, Node { request, after })?;
    Ok(Command::Enqueue {
        named: None,
        batch: Batch::new(works),
    })
}

/// What a worker reports on: an Echo, or a Count where it is another run.
#[derive(Clone, Copy)]
enum Subject {
    /// Its task.
    Task,
    /// The run after its own.
    NextRun,
    /// Its run without an input.
    NoInput,
    /// Its task, once all works were cancelled.
    CancelledTask,
}

/// The kind of the worker that reports.
fn kind_of(subject: Subject) -> Kind {
    match subject {
        Subject::NextRun => Kind::Count,
        _ => Kind::Echo,
    }
}

/// The run that a worker with this task reports on.
fn run_told(task: &Task, subject: Subject) -> u64 {
    match subject {
        Subject::NextRun => task.run.wrapping_add(1),
        _ => task.run,
    }
}

/// The input that a worker with this task reports on.
fn input_told(alloc: Global, task: &Task, subject: Subject) -> Result<Data, AllocError> {
    match subject {
        Subject::NoInput => Ok(Data::empty()),
        _ => task.input.replica(alloc),
    }
}

/// The task that a worker with this task reports on.
fn task_told(alloc: Global, task: &Task, subject: Subject) -> Result<Task, AllocError> {
    Ok(Task {
        run: run_told(task, subject),
        attempt: task.attempt,
        input: input_told(alloc, task, subject)?,
    })
}

/// What a worker of the kind that reports tells of the first turn of a task.
fn told_of(alloc: Global, task: &Task, subject: Subject) -> Result<Told, AllocError> {
    let never = Signal::never(task.run);
    match subject {
        Subject::NextRun => Count::new().turn(alloc, task, 0, &never),
        _ => Echo::new().turn(alloc, task, 0, &never),
    }
}

/// What the worker with this task tells.
fn told(alloc: Global, task: &Task, subject: Subject) -> Result<Told, AllocError> {
    let task = task_told(alloc, task, subject)?;
    let told = told_of(alloc, &task, subject);
    drop(task);
    told
}

/// Whether the second try of a report finishes its run.
fn finishes<M: Mark>(table: &mut Table<MemoryKeeper, M>, ticket: Ticket<M>, told: Told) -> bool
    requires alone { without ticket.task.run table.old.roll ≡ [] }
    ensures none_out { table.new.roll ≡ [] }
{
    match table.turn(ticket, told) {
        TurnAnswer::Finished => true,
        TurnAnswer::TimedOut | TurnAnswer::Late => false,
        TurnAnswer::Go(ticket) => {
            table.take_back(ticket);
            false
        }
        TurnAnswer::Again(ticket) => {
            table.take_back(ticket);
            false
        }
        TurnAnswer::Refused(ticket, _, _) => {
            table.take_back(ticket);
            false
        }
    }
}

/// What becomes of a work that is enqueued, started and reported on.
#[derive(Clone, Copy, Debug, PartialEq, Eq)]
enum Outcome {
    NotEnqueued,
    AnotherReply,
    NotStarted,
    NothingToStart,
    CannotStart,
    AnotherRun,
    AnotherTicket,
    GoesOn,
    Again,
    Refused,
    FinishedLater,
    Finished,
    TimedOut,
    Late,
    NoMemory,
}

/// What becomes of a report.
fn report<M: Mark>(
    table: &mut Table<MemoryKeeper, M>,
    ticket: Ticket<M>,
    told: Result<Told, AllocError>,
) -> Outcome
    requires alone { without ticket.task.run table.old.roll ≡ [] }
    ensures none_out { table.new.roll ≡ [] }
{
    let Ok(told) = told else {
        table.take_back(ticket);
        return Outcome::NoMemory;
    };
    match table.turn(ticket, told) {
        TurnAnswer::Finished => Outcome::Finished,
        TurnAnswer::TimedOut => Outcome::TimedOut,
        TurnAnswer::Late => Outcome::Late,
        TurnAnswer::Go(ticket) => {
            table.take_back(ticket);
            Outcome::GoesOn
        }
        TurnAnswer::Again(ticket) => {
            let same = ticket.seq() == 1 && ticket.k() == 0 && ticket.instance() == 0;
            table.take_back(ticket);
            if same {
                Outcome::Again
            } else {
                Outcome::AnotherTicket
            }
        }
        TurnAnswer::Refused(ticket, told, trouble) => {
            let by_keeper = trouble == Trouble::KeeperFault;
            let finished = finishes(table, ticket, told);
            if by_keeper && finished {
                Outcome::FinishedLater
            } else {
                Outcome::Refused
            }
        }
    }
}

/// What becomes of a run, where it is the first.
fn run<M: Mark>(
    alloc: Global,
    table: &mut Table<MemoryKeeper, M>,
    ticket: Ticket<M>,
    subject: Subject,
) -> Outcome
    requires alone { without ticket.task.run table.old.roll ≡ [] }
    ensures none_out { table.new.roll ≡ [] }
{
    let first = ticket.task().run == 1 && ticket.task().attempt == 1;
    if let Subject::CancelledTask = subject {
        drop(table.command(2, Command::Cancel(Target::All)));
    }
    let told = told(alloc, ticket.task(), subject);
    let outcome = report(table, ticket, told);
    if first { outcome } else { Outcome::AnotherRun }
}

/// What becomes of the start of a work and of its run.
fn start_and_report<M: Mark>(
    alloc: Global,
    table: &mut Table<MemoryKeeper, M>,
    subject: Subject,
) -> Outcome
    requires { table.old.roll ≡ [] }
    ensures { table.new.roll ≡ [] }
{
    match table.claim() {
        Ok(Some(claim)) => match claim {
            Claim::Run(ticket) => run(alloc, table, ticket, subject),
            Claim::Failed { seq: _, cause: _ } => Outcome::CannotStart,
        },
        Ok(None) => Outcome::NothingToStart,
        Err(Trouble::KeeperFault) => Outcome::NotStarted,
        Err(Trouble::Memory) => Outcome::NoMemory,
    }
}

/// Whether a reply lists the number 1 alone.
fn lists_first(reply: &Reply) -> bool {
    match reply {
        Reply::Enqueued(works) => works.as_slice() == [1].as_slice(),
        _ => false,
    }
}

/// What becomes of a work that is enqueued, started and reported on.
fn enqueue_and_run<M: Mark>(
    table: &mut Table<MemoryKeeper, M>,
    alloc: Global,
    command: Command,
    subject: Subject,
) -> Outcome
    requires legal { IsLegalLine table.old.state command }
    requires none_out { table.old.roll ≡ [] }
    ensures { table.new.roll ≡ [] }
{
    match table.command(1, command) {
        Ok(reply) => {
            let first = lists_first(&reply);
            drop(reply);
            let outcome = start_and_report(alloc, table, subject);
            if first {
                outcome
            } else {
                Outcome::AnotherReply
            }
        }
        Err(Trouble::KeeperFault) => Outcome::NotEnqueued,
        Err(Trouble::Memory) => Outcome::NoMemory,
    }
}

/// A value with another one, which isn't let go, unless memory was refused to that.
pub(crate) fn beside<T: Drop, U>(
    value: T,
    other: Result<U, AllocError>,
) -> Result<(T, U), AllocError>
    ensures { IfOk result (λ both. (both.0 ≡ value) × (other ≡ Ok both.1)) }
{
    Ok((value, other?))
}

/// A table of these instances on an empty store, over a keeper that fails at these calls.
pub(crate) fn one_table<M: Mark>(
    alloc: Global,
    failing: Vec<u32>,
    instances: Items<Instance>,
    roll: Roll,
) -> Result<Table<MemoryKeeper, M>, AllocError>
    requires rows { M.inputs.rows ≡ [] }
    requires store { IsSome M.inputs.store.rows }
    requires telling { M.inputs.store.is_lost ≡ false }
    requires instances { M.inputs.instances ≡ instances }
    requires fresh { AreFresh instances }
    requires roll { M.inputs.roll ≡ roll.table_id }
    requires empty { roll.parts ≡ [] }
    ensures none_out { IfOk result (λ table. table.roll ≡ []) }
{
    let keeper = MemoryKeeper::new(Vec::new(alloc), failing);
    Table::begin(alloc, keeper, Vec::new(alloc), instances, roll).map_err(|_| AllocError)
}

/// What becomes of one work over a keeper that fails at these calls, the work and the number of events
/// in the end, and whether there is nothing left to do and the worker is idle.
fn outcome_on<M: Mark>(
    alloc: Global,
    command: Command,
    failing: Vec<u32>,
    instances: Items<Instance>,
    roll: Roll,
    subject: Subject,
) -> Result<(Outcome, String, usize, bool), AllocError>
    requires rows { M.inputs.rows ≡ [] }
    requires store { IsSome M.inputs.store.rows }
    requires telling { M.inputs.store.is_lost ≡ false }
    requires instances { M.inputs.instances ≡ instances }
    requires fresh { AreFresh instances }
    requires roll { M.inputs.roll ≡ roll.table_id }
    requires empty { roll.parts ≡ [] }
    requires legal { (s : State) → IsLegalLine s command }
{
    let (command, mut table) = beside(command, one_table::<M>(alloc, failing, instances, roll))?;
    let outcome = enqueue_and_run(&mut table, alloc, command, subject);
    let quiet = table.quiet();
    let end = table.end();
    let work = only_text(alloc, &end);
    let events = end.log.len();
    let idle = end
        .last
        .instances
        .as_slice()
        .iter()
        .all(|instance| !instance.out);
    drop(end);
    Ok((outcome, work?, events, quiet && idle))
}

/// This number alone.
fn alone(alloc: Global, number: u32) -> Result<Vec<u32>, AllocError> {
    Ok(vec![in alloc; number]?)
}

/// What becomes of one work over a keeper that fails at this commit.
fn outcome_at(
    alloc: Global,
    failing: u32,
    subject: Subject,
) -> Result<(Outcome, String, usize, bool), AllocError> {
    let command = enqueue(alloc, Merger::Overwriting, 1)?;
    let (command, failing) = beside(command, alone(alloc, failing))?;
    let (command, instances) = beside(command, one_worker(alloc, kind_of(subject)))?;
    let (command, roll) = beside(command, Roll::new(alloc))?;
    outcome_on::<Brand>(alloc, command, failing, instances, roll, subject)
}

#[test]
fn a_table_runs_one_echo(rt: HostRuntime) -> Result<(), Fail> {
    let alloc = rt.alloc();
    for (failing, subject, want, work, events, rests) in [
        (
            0,
            Subject::Task,
            Outcome::Finished,
            "succeeded, attempt 1, an output",
            3,
            true,
        ),
        (
            1,
            Subject::Task,
            Outcome::NotEnqueued,
            "not one work",
            0,
            true,
        ),
        (
            2,
            Subject::Task,
            Outcome::NotStarted,
            "waiting, attempt 0, no output",
            1,
            false,
        ),
        (
            3,
            Subject::Task,
            Outcome::FinishedLater,
            "succeeded, attempt 1, an output",
            3,
            true,
        ),
        (
            0,
            Subject::NextRun,
            Outcome::Again,
            "running, attempt 1, no output",
            2,
            false,
        ),
        (
            0,
            Subject::NoInput,
            Outcome::Again,
            "running, attempt 1, no output",
            2,
            false,
        ),
        (
            0,
            Subject::CancelledTask,
            Outcome::Late,
            "cancelled, attempt 1, no output",
            4,
            true,
        ),
    ] {
        let came = outcome_at(alloc, failing, subject)?;
        assert_eq!(rt;
            (came.0, came.1.as_str(), came.2, came.3),
            (want, work, events, rests)
        );
    }
    Ok(())
}

/// Why a work can't start.
fn cause_text(alloc: Global, cause: &Cause) -> Result<Text, AllocError> {
    let text = match cause {
        Cause::NoWorker => String::from_str(alloc, "NoWorker")?,
        Cause::Conflict { key } => format!(in alloc; "Conflict {}", key.as_str())?,
        Cause::TooLarge { size } => format!(in alloc; "TooLarge {size}")?,
    };
    Ok(Text::from_string(text))
}

/// What becomes of the start of a work: the input of its run, or why it can't start.
fn start<M: Mark>(alloc: Global, table: &mut Table<MemoryKeeper, M>) -> Result<Text, AllocError>
    requires { table.old.roll ≡ [] }
    ensures { table.new.roll ≡ [] }
{
    match table.claim() {
        Ok(Some(claim)) => match claim {
            Claim::Run(ticket) => {
                let input = ticket.task().input.to_text(alloc);
                table.take_back(ticket);
                input
            }
            Claim::Failed { seq: _, cause } => cause_text(alloc, &cause),
        },
        Ok(None) => Text::from_str(alloc, "nothing to start"),
        Err(_) => Text::from_str(alloc, "trouble"),
    }
}

/// The phase of a work, how often it was started, and whether it gave an output.
fn record_text(alloc: Global, work: &Record) -> Result<String, AllocError> {
    let phase = match work.phase {
        Phase::Waiting => "waiting",
        Phase::Running => "running",
        Phase::Done(How::Succeeded) => "succeeded",
        Phase::Done(How::Failed) => "failed",
        Phase::Done(How::Cancelled) => "cancelled",
    };
    let output = if work.output.is_empty() {
        "no output"
    } else {
        "an output"
    };
    format!(in alloc; "{phase}, attempt {}, {output}", work.attempt)
}

/// The only work of a table in the end.
fn only_text(alloc: Global, end: &TableEnd<MemoryKeeper>) -> Result<String, AllocError> {
    match end.last.works.as_slice() {
        [work] => record_text(alloc, work),
        _ => String::from_str(alloc, "not one work"),
    }
}

/// The only work of a table in the end.
fn end_text<M: Mark>(alloc: Global, table: Table<MemoryKeeper, M>) -> Result<String, AllocError>
    requires { table.roll ≡ [] }
{
    let end = table.end();
    let text = only_text(alloc, &end);
    drop(end);
    text
}

/// What becomes of the start of the work that this enqueues, and what the work is then.
fn started_on<M: Mark>(
    alloc: Global,
    command: Command,
    instances: Items<Instance>,
    roll: Roll,
) -> Result<String, AllocError>
    requires rows { M.inputs.rows ≡ [] }
    requires store { IsSome M.inputs.store.rows }
    requires telling { M.inputs.store.is_lost ≡ false }
    requires instances { M.inputs.instances ≡ instances }
    requires fresh { AreFresh instances }
    requires roll { M.inputs.roll ≡ roll.table_id }
    requires empty { roll.parts ≡ [] }
    requires legal { (s : State) → IsLegalLine s command }
{
    let table = one_table::<M>(alloc, Vec::new(alloc), instances, roll);
    let (command, mut table) = beside(command, table)?;
    drop(table.command(1, command));
    let outcome = start(alloc, &mut table);
    let record = end_text(alloc, table)?;
    format!(in alloc; "{} {}", outcome?.as_str(), record.as_str())
}

/// What becomes of the start of a work with this merger and a text of so many letters, and what the
/// work is then.
fn started(alloc: Global, merger: Merger, count: usize) -> Result<String, AllocError> {
    let command = enqueue(alloc, merger, count)?;
    let (command, instances) = beside(command, one_worker(alloc, Kind::Echo))?;
    let (command, roll) = beside(command, Roll::new(alloc))?;
    started_on::<Brand>(alloc, command, instances, roll)
}

#[test]
fn a_run_takes_what_the_merger_makes(rt: HostRuntime) -> Result<(), Fail> {
    let alloc = rt.alloc();
    for (merger, count, want) in [
        (
            Merger::Overwriting,
            1,
            "{\"k\":{\"text\":\"x\"}} running, attempt 1, no output",
        ),
        (
            Merger::ArrayCreating,
            1,
            "{\"k\":{\"texts\":[\"x\"]}} running, attempt 1, no output",
        ),
        (
            Merger::ArrayCreating,
            10_230,
            "TooLarge 10244 failed, attempt 0, no output",
        ),
    ] {
        assert_eq!(rt; started(alloc, merger, count)?.as_str(), want);
    }
    Ok(())
}
