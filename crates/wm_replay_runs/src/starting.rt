//! How the work that is first starts, and that it can't.
ghost use Rattle.std.specs.Prelude.{◌≡◌, ◌↔◌, ◌<◌, if◌then◌else◌, Ok, Some, Decides, IfOk, IsTrue, MatchOption, OnOk};
ghost use Rattle.wm_replay_runs.specs.Starts.{begun, IsNamed, IsStartBy, StartsNone};
ghost use Rattle.wm_machine.specs.First.{first_of, idle_instance};
ghost use Rattle.wm_machine.specs.Input.{input_of};
ghost use Rattle.wm_machine.specs.Runs.{one_attempt_more, start_refusal};
ghost use Rattle.wm_machine.specs.Step.{after, IsStartFailure, Legal};
ghost use Rattle.wm_machine.specs.Valid.{AreNumberedInOrder, Valid};
ghost use Rattle.wm_machine.specs.declared.event.Event.TheVariants as event;

use crate::ending::fail_start;
use crate::inputs::input_among;
use crate::work_changes::{Started, change_work};
use std::alloc::{AllocError, Global};
use wm_collections::{at, both};
use wm_data::Data;
use wm_lifecycle::{run_on, set_out, started};
use wm_machine::{Cause, Instance, Record, Run, State, idle_in, is_live};
use wm_query::first_index;

/// The start of the run of this number, of the work of this number, on the instance of this number
/// and with this input. It is legal where it is the next run, of the work that is first, on the idle
/// instance of its class with the least number, and with the input that the work takes.
pub fn start(
    alloc: Global,
    state: &mut State,
    run: u64,
    seq: u64,
    instance: u32,
    input: &Data,
) -> Result<bool, AllocError>
    requires valid { Valid state.old }
    requires few_runs { state.old.next_run < 18446744073709551615 }
    ensures legal { IfOk result (λ legal. IsTrue legal
        ↔ Legal state.old (event.Start run seq instance input.entry.now)) }
    ensures state { IfOk result (λ legal. state.new
        ≡ (if legal then after state.old (event.Start run seq instance input.entry.now) else state.old)) }
{
    match starting_run(alloc, state, input)? {
        Some(begun) => begin_named(alloc, state, begun, run, seq, instance),
        None => Ok(false),
    }
}

/// Begins a run, where it has this number and is of the work and on the instance of these numbers.
fn begin_named(
    alloc: Global,
    state: &mut State,
    started: Run,
    run: u64,
    seq: u64,
    instance: u32,
) -> Result<bool, AllocError>
    requires few_runs { state.old.next_run < 18446744073709551615 }
    requires numbered { AreNumberedInOrder 0 state.old.instances }
    ensures named { IfOk result (λ named. IsTrue named ↔ IsNamed started run seq instance) }
    ensures state { IfOk result (λ named. state.new ≡ (if named then begun state.old started else state.old)) }
{
    if !is_named(&started, run, seq, instance) {
        return Ok(false);
    }
    begin(alloc, state, started)?;
    Ok(true)
}

/// Whether a run has this number, and is of the work and on the instance of these numbers.
fn is_named(begun: &Run, run: u64, seq: u64, instance: u32) -> bool
    ensures { IsTrue result ↔ IsNamed begun.entry.now run seq instance }
{
    begun.run == run && begun.seq == seq && begun.instance == instance
}

/// Begins a run.
fn begin(alloc: Global, state: &mut State, run: Run) -> Result<(), AllocError>
    requires few_runs { state.old.next_run < 18446744073709551615 }
    requires numbered { AreNumberedInOrder 0 state.old.instances }
    ensures { OnOk result (state.new ≡ begun state.old run) }
{
    change_work(alloc, &mut state.works, run.seq, &Started)?;
    set_out(alloc, &mut state.instances, run.instance, true);
    state.next_run += 1;
    state.runs.push(run)?;
    Ok(())
}

/// The run of the work that is first, where it can start and takes this input.
fn starting_run(alloc: Global, state: &State, input: &Data) -> Result<Option<Run>, AllocError>
    requires { Valid state.now }
    ensures { IfOk result (λ found. MatchOption found
        (StartsNone state.entry.now input.entry.now) (IsStartBy state.entry.now input.entry.now)) }
{
    let Some(index) = first_index(state) else {
        return Ok(None);
    };
    let work = at(state.works.as_slice(), index);
    match idle_in(state.instances.as_slice(), work.request.class().as_str()) {
        Some(idle) => run_with(alloc, state, work, idle, input),
        None => Ok(None),
    }
}

/// The run of the work that is first on an idle instance, where it takes this input.
fn run_with(
    alloc: Global,
    state: &State,
    work: &Record,
    idle: &Instance,
    input: &Data,
) -> Result<Option<Run>, AllocError>
    requires valid { Valid state.now }
    requires first { first_of state.now ≡ Some work.now }
    requires idle { idle_instance state.now.instances work.now.request.class ≡ Some idle.now }
    ensures { IfOk result (λ found. MatchOption found
        (StartsNone state.entry.now input.entry.now) (IsStartBy state.entry.now input.entry.now)) }
{
    match input_among(alloc, state.works.as_slice(), work)? {
        Ok(taken) => run_taking(alloc, state, work, idle, input, taken),
        Err(_) => Ok(None),
    }
}

/// The run of the work that is first on an idle instance, where what it takes is this input.
fn run_taking(
    alloc: Global,
    state: &State,
    work: &Record,
    idle: &Instance,
    input: &Data,
    taken: Data,
) -> Result<Option<Run>, AllocError>
    requires first { first_of state.now ≡ Some work.now }
    requires idle { idle_instance state.now.instances work.now.request.class ≡ Some idle.now }
    requires taken { input_of state.now work.now ≡ Ok taken }
    ensures { IfOk result (λ found. MatchOption found
        (StartsNone state.entry.now input.entry.now) (IsStartBy state.entry.now input.entry.now)) }
{
    let same = taken == *input;
    if !same {
        return Ok(None);
    }
    let (taken, attempt) = both(taken, next_attempt(alloc, work))?;
    Ok(Some(run_on(state, work, attempt, idle, taken)))
}

/// The attempt that a work is at once it is started.
fn next_attempt(alloc: Global, work: &Record) -> Result<u32, AllocError>
    ensures { IfOk result (λ attempt. attempt ≡ one_attempt_more work.entry.now.attempt) }
{
    let started = started(alloc, work)?;
    Ok(started.attempt)
}

/// That the work of this number can't start for this cause. It is legal where the work is first, and
/// that is why: then one-time work has failed with its unfinished descendants, and periodic work is
/// enqueued again.
pub fn start_failed(
    alloc: Global,
    state: &mut State,
    seq: u64,
    cause: &Cause,
) -> Result<bool, AllocError>
    requires valid { Valid state.old }
    ensures legal { IfOk result (λ legal. IsTrue legal ↔ Legal state.old (event.StartFailed seq cause.entry.now)) }
    ensures state { IfOk result (λ legal. state.new
        ≡ (if legal then after state.old (event.StartFailed seq cause.entry.now) else state.old)) }
{
    if !fails_to_start(alloc, state, seq, cause)? {
        return Ok(false);
    }
    let now = state.now;
    fail_start(alloc, &mut state.works, seq, now)?;
    Ok(true)
}

/// Whether the work of this number is first and can't start for this cause.
fn fails_to_start(alloc: Global, state: &State, seq: u64, cause: &Cause) -> Result<bool, AllocError>
    requires { Valid state.now }
    ensures { IfOk result (λ fails. IsTrue fails ↔ IsStartFailure state.entry.now seq cause.entry.now) }
{
    let Some(index) = first_index(state) else {
        return Ok(false);
    };
    let work = at(state.works.as_slice(), index);
    if work.seq != seq {
        return Ok(false);
    }
    match start_refusal(alloc, state, work)? {
        Some(found) => Ok(is_same(&found, cause)),
        None => Ok(false),
    }
}

/// Why a work that is first can't start, where it can't.
fn start_refusal(alloc: Global, state: &State, work: &Record) -> Result<Option<Cause>, AllocError>
    requires { Valid state.now }
    ensures { IfOk result (λ cause. cause ≡ start_refusal state.entry.now work.entry.now) }
{
    let class = work.request.class().as_str();
    if !is_live(state.instances.as_slice(), class) {
        return Ok(Some(Cause::NoWorker));
    }
    match input_among(alloc, state.works.as_slice(), work)? {
        Ok(_) => Ok(None),
        Err(cause) => Ok(Some(cause)),
    }
}

/// Whether two causes are the same.
fn is_same(one: &Cause, other: &Cause) -> bool
    ensures { Decides result (one.entry.now ≡ other.entry.now) }
{
    match (one, other) {
        (Cause::NoWorker, Cause::NoWorker) => true,
        (Cause::Conflict { key }, Cause::Conflict { key: other }) => *key == *other,
        (Cause::TooLarge { size }, Cause::TooLarge { size: other }) => *size == *other,
        _ => false,
    }
}
