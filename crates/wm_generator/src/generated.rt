//! A large input that a seed gives.
ghost use Rattle.std.specs.Prelude.{◌≡◌, ◌<◌, ◌≤◌, ◌∷◌, ◌++◌, [], ◌^◌, length, None, Ok, IfOk, OnOk};
ghost use Rattle.std.specs.List.{AllByRecursion};
ghost use Rattle.wm_chain.specs.Layers.{chained, layered, no_layer};
ghost use Rattle.wm_chain.specs.Walk.{fault_in};
ghost use Rattle.wm_machine.specs.Outcome.{IsAskable};
ghost use Rattle.wm_request.specs.Building.{built_of, one_time_of};
ghost use Rattle.wm_generator.specs.Generated.{after_groups, before_groups, class_of, drawn_on, drawn_work, first_layer, first_work, generated, group_of, groups_of, id_of, is_late, late_tag, layers_of};

use crate::draws::Draws;
use std::alloc::{AllocError, Global};
use uuid::Uuid;
use wm_chain::{ChainFault, Continuation};
use wm_collections::{Items, Text};
use wm_conditions::Conditions;
use wm_machine::{Command, Target};
use wm_request::{Batch, Builder, Request, RequestFault};

/// How many works a group has.
const GROUP_WORKS: u64 = 5;

/// The tag of the works that wait for a day.
const LATE: &str = "late";

/// A day, in milliseconds.
const DAY: u64 = 86_400_000;

/// The device is connected, charging and idle, and nothing is low.
const UNMETERED: Conditions = Conditions {
    connected: true,
    charging: true,
    idle: true,
    ..Conditions::OPENING
};

/// The same on a network that is metered.
const METERED: Conditions = Conditions {
    metered: true,
    ..UNMETERED
};

/// The commands that a seed gives, with so many groups of five works, at least one and at most
/// 19,000. Memory that is refused is the only error.
#[tactic(auto, unfolding(crate::specs::Generated::generated))]
pub fn generate(alloc: Global, seed: u64, groups: u32) -> Result<Items<Command>, AllocError>
    requires some { 1 ≤ groups }
    requires few { groups ≤ 19000 }
    ensures commands { IfOk result (λ commands. commands ≡ generated seed groups) }

    // What follows of the commands.
    ensures askable { IfOk result (λ commands. AllByRecursion IsAskable commands) }
    ensures few { IfOk result (λ commands. length commands < 2 ^ 32) }
{
    let mut commands = before_groups(alloc)?;
    add_groups(alloc, &mut commands, seed, groups)?;
    let mut after = after_groups(alloc)?;
    commands.append(&mut after)?;
    Ok(Items::from_vec(commands))
}

/// The commands before the groups.
fn before_groups(alloc: Global) -> Result<Vec<Command>, AllocError>
    ensures { IfOk result (λ commands. commands.items ≡ before_groups) }
{
    Ok(vec![in alloc; Command::Hush, Command::Conditions(UNMETERED)]?)
}

/// The commands after the groups.
fn after_groups(alloc: Global) -> Result<Vec<Command>, AllocError>
    ensures { IfOk result (λ commands. commands.items ≡ after_groups) }
{
    let tag = Text::from_str(alloc, LATE)?;
    Ok(vec![in alloc;
        Command::Settle,
        Command::Conditions(METERED),
        Command::Settle,
        Command::Cancel(Target::Tag(tag)),
        Command::Settle,
        Command::Moment(30_000),
        Command::Settle,
        Command::Summary,
    ]?)
}

/// Puts the commands of the first groups at the end.
fn add_groups(
    alloc: Global,
    commands: &mut Vec<Command>,
    seed: u64,
    groups: u32,
) -> Result<(), AllocError>
    ensures { OnOk result (commands.new.items ≡ commands.old.items ++ groups_of seed groups) }
{
    let mut draws = Draws { number: seed };
    for group in 0..groups {
        commands.push(group_of(alloc, seed, group, &mut draws)?)?;
    }
    Ok(())
}

/// The command that enqueues a group, for which six numbers are drawn.
#[tactic(auto, unfolding(crate::specs::Generated::works_of))]
fn group_of(alloc: Global, seed: u64, group: u32, draws: &mut Draws) -> Result<Command, AllocError>
    ensures command { IfOk result (λ command. command ≡ group_of seed group draws.old.number) }
    ensures drawn { OnOk result (draws.new.number ≡ drawn_on draws.old.number 6) }
{
    let chain = layers_of(alloc, seed, group, draws)?;
    let batch = batch_of(chain)?;
    Ok(Command::Enqueue { named: None, batch })
}

/// The batch of a chain without a fault.
fn batch_of(chain: Continuation) -> Result<Batch, AllocError>
    requires { fault_in chain.works ≡ None }
    ensures { IfOk result (λ batch. batch ≡ record { works = chain.works }) }
{
    match chain.batch() {
        Ok(batch) => Ok(batch),
        Err(ChainFault::Memory) => Err(AllocError),
        Err(_) => unreachable!(),
    }
}

/// The works of a group in their layers.
fn layers_of(
    alloc: Global,
    seed: u64,
    group: u32,
    draws: &mut Draws,
) -> Result<Continuation, AllocError>
    ensures chain { IfOk result
        (λ chain. chain ≡ chained no_layer (layers_of seed group draws.old.number)) }
    ensures drawn { OnOk result (draws.new.number ≡ drawn_on draws.old.number 6) }
{
    let first = first_layer(alloc, seed, group, draws)?;
    let chain = Continuation::begin_with(alloc, first)?;
    let chain = with_work(alloc, chain, id_of(seed, group, 4), class_of(group))?;
    with_work(alloc, chain, id_of(seed, group, 5), "Echo")
}

/// The first layer of a group.
fn first_layer(
    alloc: Global,
    seed: u64,
    group: u32,
    draws: &mut Draws,
) -> Result<Vec<Request>, AllocError>
    ensures layer { IfOk result
        (λ layer. layer.items ≡ first_layer seed group draws.old.number) }
    ensures drawn { OnOk result (draws.new.number ≡ drawn_on draws.old.number 6) }
{
    let mut layer = Vec::new(alloc);
    layer.push(first_work(alloc, seed, group, draws)?)?;
    layer.push(drawn_work(alloc, id_of(seed, group, 2), draws)?)?;
    layer.push(drawn_work(alloc, id_of(seed, group, 3), draws)?)?;
    Ok(layer)
}

/// The first work of a group, which waits for a day in one group of four.
fn first_work(
    alloc: Global,
    seed: u64,
    group: u32,
    draws: &mut Draws,
) -> Result<Request, AllocError>
    ensures request { IfOk result (λ request. request ≡ first_work seed group draws.old.number) }
    ensures drawn { OnOk result (draws.new.number ≡ drawn_on draws.old.number 2) }
{
    let builder = drawing(alloc, id_of(seed, group, 1), draws)?;
    if is_late(group) {
        late(alloc, builder)
    } else {
        built(builder)
    }
}

/// Whether the first work of a group waits for a day.
#[tactic(auto, unfolding(crate::specs::Generated::is_late))]
fn is_late(group: u32) -> bool
    ensures { result ≡ is_late group }
{
    group % 4 == 3
}

/// The request of a builder without a tag, as one that waits for a day.
fn late(alloc: Global, mut builder: Builder) -> Result<Request, AllocError>
    requires tags { builder.tags ≡ [] }
    requires built { built_of builder ≡ Ok builder }
    ensures { IfOk result
        (λ request. request ≡ record builder { initial_delay = 86400000; tags = late_tag ∷ [] }) }
{
    builder.initial_delay(DAY);
    builder.tag(String::from_str(alloc, LATE)?)?;
    built(builder)
}

/// An Echo with the constraints and the input that are drawn for it.
fn drawn_work(alloc: Global, id: Uuid, draws: &mut Draws) -> Result<Request, AllocError>
    ensures request { IfOk result (λ request. request ≡ drawn_work id draws.old.number) }
    ensures drawn { OnOk result (draws.new.number ≡ drawn_on draws.old.number 2) }
{
    built(drawing(alloc, id, draws)?)
}

/// The builder of an Echo with the constraints and the input that are drawn for it.
fn drawing(alloc: Global, id: Uuid, draws: &mut Draws) -> Result<Builder, AllocError>
    ensures builder { IfOk result (λ builder. builder ≡ drawn_work id draws.old.number) }
    ensures drawn { OnOk result (draws.new.number ≡ drawn_on draws.old.number 2) }
{
    let constraints = draws.constraints();
    let input = draws.input(alloc)?;
    let class = String::from_str(alloc, "Echo")?;
    let mut builder = Builder::one_time(alloc, id, class);
    builder.input(input);
    builder.constraints(constraints);
    Ok(builder)
}

/// A chain with a layer more, of one work of this id and class.
fn with_work(
    alloc: Global,
    chain: Continuation,
    id: Uuid,
    class: &str,
) -> Result<Continuation, AllocError>
    requires { built_of (one_time_of id class.now) ≡ Ok (one_time_of id class.now) }
    ensures { IfOk result (λ more. more ≡ layered chain (one_time_of id class.now ∷ [])) }
{
    let class = String::from_str(alloc, class)?;
    let request = built(Builder::one_time(alloc, id, class))?;
    chain.then(vec![in alloc; request]?)
}

/// The request of a builder that is within the limits of one.
fn built(builder: Builder) -> Result<Request, AllocError>
    requires { built_of builder ≡ Ok builder }
    ensures { IfOk result (λ request. request ≡ builder) }
{
    match builder.build() {
        Ok(request) => Ok(request),
        Err(RequestFault::Memory) => Err(AllocError),
        Err(_) => unreachable!(),
    }
}

/// The id of a work, by its place in its group, from 1 to 5.
#[tactic(auto, unfolding(crate::specs::Generated::id_of))]
fn id_of(seed: u64, group: u32, place: u64) -> Uuid
    requires { place ≤ 5 }
    ensures { result ≡ id_of seed group place }
{
    Uuid::from_u64_pair(seed, GROUP_WORKS * u64::from(group) + place)
}

/// The class of the work in the second layer of a group.
#[tactic(auto, unfolding(crate::specs::Generated::class_of))]
fn class_of(group: u32) -> &'static str
    ensures { result.now ≡ class_of group }
{
    match group % 4 {
        0 => "Sum",
        1 => "FailUntil",
        2 => "RetryUntil",
        _ => "Echo",
    }
}
