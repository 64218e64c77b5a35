//! An enqueue under a unique name, of `wm_commands`, where there are as many works as there may be or
//! no number is left: the works are kept, one is updated or a kind is refused before either is told.
ghost use Rattle.std.specs.Prelude.{◌≡◌, ◌^◌, ◌<◌, ◌≤◌, [], length, IfOk, IfSome};
ghost use Rattle.command_tests.specs.Waiting.{waiting_state, AreWaiting, ComesAnywhere};
ghost use Rattle.wm_machine.specs.Built.{AreAsked};
ghost use Rattle.wm_changes.specs.Nodes.{nodes_of};
ghost use Rattle.wm_request.specs.Requests.{IsRequest, IsShortText};

use crate::checks::{MAX_WORKS, NEW, SPENT, TOO_MANY, Told, name, periodic, records, told};
use crate::unique::request;
use std::alloc::{AllocError, Global};
use std::process::Abort;
use std::test::Fail;
use wm_collections::{Items, both, one};
use wm_commands::execute;
use wm_conditions::Conditions;
use wm_graph::Graph;
use wm_machine::{Command, Event, NUMBERS_END, Policy, Record, Reply, State, UniqueName};
use wm_request::{Batch, Node, Request};
use wm_steps::View;

/// A state of these works, where the next new work gets this number: it has no run, instance or
/// observer, and its moment is 0.
fn state_of(alloc: Global, works: Items<Record>, next: u64) -> State
    ensures { result ≡ waiting_state works next }
{
    State {
        works,
        conditions: Conditions::OPENING,
        now: 0,
        runs: Items::new(alloc),
        instances: Items::new(alloc),
        next,
        next_run: 1,
        observers: Items::new(alloc),
        hushed: false,
    }
}

/// The graph of works that wait, which come after none.
fn graph_of(alloc: Global, works: &[Record]) -> Result<Graph, AllocError>
    requires { AreWaiting works.now }
    ensures { IfOk result (λ graph. graph ≡ nodes_of works.entry.now) }
{
    let mut graph = Graph::new(alloc);
    for work in works {
        graph.add(work.seq, &[], work.phase.is_succeeded())?;
    }
    Ok(graph)
}

/// The view of such a state of works that wait.
fn view(alloc: Global, works: Items<Record>, next: u64) -> Result<View, AllocError>
    requires waiting { AreWaiting works }
    requires few_works { length works ≤ 100000 }
    requires above { length works < next }
    requires next { next ≤ 2 ^ 53 }
{
    let graph = graph_of(alloc, works.as_slice());
    let (works, graph) = both(works, graph)?;
    View::new(alloc, state_of(alloc, works, next), graph)
}

/// The request of the new work.
fn asked(alloc: Global, is_periodic: bool) -> Result<Request, AllocError>
    ensures { IfOk result IsRequest }
{
    if is_periodic {
        periodic(alloc, NEW)
    } else {
        request(alloc, NEW)
    }
}

/// A batch of one work, which names none.
fn batch(alloc: Global, is_periodic: bool) -> Result<Batch, AllocError>
    ensures { IfOk result (λ batch. AreAsked batch.works) }
{
    let request = asked(alloc, is_periodic)?;
    let after = Items::new(alloc);
    Ok(Batch::new(one(alloc, Node { request, after })?))
}

/// The unique name of the first record, with this policy where there is one.
fn named(alloc: Global, policy: Option<Policy>) -> Result<Option<UniqueName>, AllocError>
    ensures { IfOk result (λ named. IfSome named (λ unique. IsShortText unique.name)) }
{
    match policy {
        Some(policy) => Ok(Some(UniqueName {
            name: name(alloc)?,
            policy,
        })),
        None => Ok(None),
    }
}

/// The enqueue of a batch, under a name where there is one.
fn enqueue_of(named: Option<UniqueName>, batch: Batch) -> Command
    requires name { IfSome named (λ unique. IsShortText unique.name) }
    requires asked { AreAsked batch.works }
    ensures { ComesAnywhere result }
{
    match named {
        Some(unique) => Command::Enqueue {
            named: Some(unique),
            batch,
        },
        None => Command::Enqueue { named: None, batch },
    }
}

/// An enqueue of one work, under the name of the first record where there is a policy.
fn enqueue(alloc: Global, policy: Option<Policy>, is_periodic: bool) -> Result<Command, AllocError>
    ensures { IfOk result ComesAnywhere }
{
    let named = named(alloc, policy)?;
    let (named, batch) = both(named, batch(alloc, is_periodic))?;
    Ok(enqueue_of(named, batch))
}

/// What a reply tells: its name, or that of the refusal, and its number as wide as an id.
fn replied(reply: &Reply) -> (&'static str, u128) {
    match reply {
        Reply::Kept => ("Kept", 0),
        Reply::Updated {
            result: _,
            generation,
        } => ("Updated", *generation as u128),
        Reply::Refused(refusal) => told(refusal),
        _ => ("another", 0),
    }
}

/// What the reply in an event tells.
fn replied_in(event: &Event) -> (&'static str, u128) {
    match event {
        Event::Command { reply, .. } => replied(reply),
        _ => ("another", 0),
    }
}

/// What an enqueue is replied in a state.
fn reply_to(
    alloc: Global,
    view: &View,
    policy: Option<Policy>,
    is_periodic: bool,
) -> Result<(&'static str, u128), AllocError> {
    let command = enqueue(alloc, policy, is_periodic)?;
    let change = execute(alloc, view, 1, command)?;
    let found = replied_in(&change.event);
    drop(change);
    Ok(found)
}

/// An enqueue is replied so.
fn expect_replied(
    rt: &impl Abort,
    alloc: Global,
    view: &View,
    asked: (Option<Policy>, bool),
    expected: Told,
) -> Result<(), AllocError> {
    let found = reply_to(alloc, view, asked.0, asked.1)?;
    assert_eq!(rt; found.0, expected.0);
    assert_eq!(rt; found.1, expected.1 as u128);
    Ok(())
}

/// A policy of the name with a batch of one work, which is periodic or not, and what it is replied,
/// whether works and numbers are spent or not.
type Named = (Policy, bool, Told);

/// The first three checks of an enqueue under a name: one that keeps, one of a kind that the policy
/// can't take, and one that updates.
const NAMED: [Named; 3] = [
    (Policy::Keep, false, ("Kept", 0)),
    (Policy::CancelAndReenqueue, false, ("KindMismatch", NEW)),
    (Policy::Update, true, ("Updated", 1)),
];

/// Under the name each is replied as it tells, and so the same batch without a name.
fn expect_each(
    rt: &impl Abort,
    alloc: Global,
    view: &View,
    unnamed: Told,
) -> Result<(), AllocError> {
    for named in &NAMED {
        expect_replied(rt, alloc, view, (Some(named.0), named.1), named.2)?;
        expect_replied(rt, alloc, view, (None, named.1), unnamed)?;
    }
    Ok(())
}

/// Each is replied so, where there are so many records and the next new work gets this number.
fn expect_where(
    rt: &impl Abort,
    alloc: Global,
    count: u64,
    next: u64,
    unnamed: Told,
) -> Result<(), AllocError>
    requires few_works { count ≤ 100000 }
    requires above { count < next }
    requires next { next ≤ 2 ^ 53 }
{
    let works = records(alloc, count)?;
    let view = view(alloc, works, next)?;
    expect_each(rt, alloc, &view, unnamed)
}

#[test]
fn a_name_comes_before_works_and_numbers(rt: HostRuntime) -> Result<(), Fail> {
    let alloc = rt.alloc();
    expect_where(&rt, alloc, 2, NUMBERS_END, SPENT)?;
    expect_where(&rt, alloc, MAX_WORKS, MAX_WORKS + 1, TOO_MANY)?;
    Ok(())
}
