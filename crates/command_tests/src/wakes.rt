//! When a table wakes while a run is out.
ghost use Rattle.std.specs.Prelude.{◌≡◌, [], false, IfOk, IsSome, None};
ghost use Rattle.wm_machine.specs.Opened.{AreFresh};
ghost use Rattle.wm_machine.specs.Outcome.{IsLegalLine};
ghost use Rattle.wm_machine.specs.declared.state.State.{State};
ghost use Rattle.wm_request.specs.Requests.{IsRequest};

use crate::table::{beside, enqueue_of, one_table};
use part_tests::requests::within;
use std::alloc::{AllocError, Global};
use std::marker::Brand;
use std::test::Fail;
use uuid::Uuid;
use wm_collections::{Items, Text};
use wm_keeper::MemoryKeeper;
use wm_machine::{Command, Instance, Kind};
use wm_request::{Builder, Request};
use wm_roll::Roll;
use wm_table::{Claim, Mark, Table};

/// An idle worker of class Echo, and one of class Count.
fn two_workers(alloc: Global) -> Result<Items<Instance>, AllocError>
    ensures { IfOk result AreFresh }
{
    let mut instances = Items::new(alloc);
    instances.push(Instance {
        number: 0,
        class: Text::from_str(alloc, "Echo")?,
        kind: Kind::Echo,
        out: false,
        retired: false,
    })?;
    instances.push(Instance {
        number: 1,
        class: Text::from_str(alloc, "Count")?,
        kind: Kind::Count,
        out: false,
        retired: false,
    })?;
    Ok(instances)
}

/// The request of one-time work of this class, which waits so long.
fn request(alloc: Global, id: u128, class: &str, delay: u64) -> Result<Request, AllocError>
    ensures within { IfOk result IsRequest }
    ensures one_time { IfOk result (λ request. request.period ≡ None) }
{
    let class = String::from_str(alloc, class)?;
    let mut builder = Builder::one_time(alloc, Uuid::from_u128(id), class);
    builder.initial_delay(delay);
    within(builder.build())
}

/// An enqueue of such a work.
fn enqueue(alloc: Global, id: u128, class: &str, delay: u64) -> Result<Command, AllocError>
    ensures { IfOk result (λ command. (s : State) → IsLegalLine s command) }
{
    let request = request(alloc, id, class, delay)?;
    enqueue_of(alloc, request)
}

/// Enqueues two works, starts the one that is first, and answers when the table wakes then; none where
/// no run began.
fn wake_beside_a_run<M: Mark>(
    table: &mut Table<MemoryKeeper, M>,
    first: Command,
    later: Command,
) -> Option<Option<u64>>
    requires first_legal { (s : State) → IsLegalLine s first }
    requires later_legal { (s : State) → IsLegalLine s later }
    requires none_out { table.old.roll ≡ [] }
    ensures none_out { table.new.roll ≡ [] }
{
    drop(table.command(1, first));
    drop(table.command(2, later));
    match table.claim() {
        Ok(Some(claim)) => match claim {
            Claim::Run(ticket) => {
                let wake = table.wake();
                table.take_back(ticket);
                Some(wake)
            }
            Claim::Failed { seq: _, cause: _ } => None,
        },
        Ok(None) => None,
        Err(_) => None,
    }
}

/// When a table of these instances wakes, in which a first work runs and this one waits.
fn wake_of<M: Mark>(
    alloc: Global,
    later: Command,
    instances: Items<Instance>,
    roll: Roll,
) -> Result<Option<Option<u64>>, AllocError>
    requires rows { M.inputs.rows ≡ [] }
    requires store { IsSome M.inputs.store.rows }
    requires telling { M.inputs.store.is_lost ≡ false }
    requires instances { M.inputs.instances ≡ instances }
    requires fresh { AreFresh instances }
    requires roll { M.inputs.roll ≡ roll.table_id }
    requires empty { roll.parts ≡ [] }
    requires legal { (s : State) → IsLegalLine s later }
{
    let (later, first) = beside(later, enqueue(alloc, 1, "Echo", 0))?;
    let table = one_table::<M>(alloc, Vec::new(alloc), instances, roll);
    let (both, mut table) = beside((first, later), table)?;
    let (first, later) = both;
    let wake = wake_beside_a_run(&mut table, first, later);
    drop(table.end());
    Ok(wake)
}

/// When a table wakes in which a work of class Echo runs on the only worker of its class, and one of this
/// class is due at 400.
fn wake_with(alloc: Global, class: &str) -> Result<Option<Option<u64>>, AllocError> {
    let later = enqueue(alloc, 2, class, 400)?;
    let (later, instances) = beside(later, two_workers(alloc))?;
    let (later, roll) = beside(later, Roll::new(alloc))?;
    wake_of::<Brand>(alloc, later, instances, roll)
}

#[test]
fn a_table_wakes_where_an_instance_is_free(rt: HostRuntime) -> Result<(), Fail> {
    let alloc = rt.alloc();
    assert_eq!(rt; wake_with(alloc, "Count")?, Some(Some(400)));
    assert_eq!(rt; wake_with(alloc, "Echo")?, Some(None));
    Ok(())
}
