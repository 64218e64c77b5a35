//! Works that are requested by calls, and placed in a table without a script.
ghost use Rattle.std.specs.Prelude.{◌≡◌, false, [], IfSome, IsSome};
ghost use Rattle.wm_machine.specs.Built.{AreAsked};
ghost use Rattle.wm_machine.specs.Outcome.{IsLegalLine};

use crate::resizer::number;
use std::alloc::Global;
use std::marker::Brand;
use uuid::Uuid;
use wm_chain::Continuation;
use wm_collections::Items;
use wm_conditions::{Constraints, Network};
use wm_data::Merger;
use wm_keeper::SureKeeper;
use wm_machine::{Command, Reply};
use wm_request::{Batch, Builder, Request};
use wm_roll::Roll;
use wm_schedule::BackoffPolicy;
use wm_table::{Mark, Table};

/// A photo 800 wide is to be resized, and tried again after a minute, two minutes and so on.
fn resize(alloc: Global, id: u128) -> Option<Request> {
    let class = String::from_str(alloc, "Resize").ok()?;
    let mut builder = Builder::one_time(alloc, Uuid::from_u128(id), class);
    builder.input(number(alloc, "width", 800).ok()?);
    builder.backoff(BackoffPolicy::Linear, 60_000);
    builder.tag(String::from_str(alloc, "photo").ok()?).ok()?;
    builder.build().ok()
}

/// What came before is to be published, as lists, over a network that isn't metered.
fn publish(alloc: Global, id: u128) -> Option<Request> {
    let class = String::from_str(alloc, "Echo").ok()?;
    let mut builder = Builder::one_time(alloc, Uuid::from_u128(id), class);
    builder.merger(Merger::ArrayCreating);
    builder.constraints(Constraints {
        network: Network::Unmetered,
        ..Constraints::NONE
    });
    builder.build().ok()
}

/// Two photos are resized, each by itself, and then published together. None where memory is
/// refused; nothing else of it can be.
pub fn photos(alloc: Global) -> Option<Batch> {
    let first = vec![in alloc; resize(alloc, 1)?, resize(alloc, 2)?].ok()?;
    let then = vec![in alloc; publish(alloc, 3)?].ok()?;
    let chain = Continuation::begin_with(alloc, first).ok()?;
    chain.then(then).ok()?.batch().ok()
}

/// Shows that the requests of a batch are within their limits.
fn show_limits(batch: &Batch)
    ensures { AreAsked batch.now.works }
{
    for work in batch.works().as_slice() {
        work.request.show_limits();
    }
}

/// A table on an empty store in memory, without workers. None where memory is refused.
fn begin<M: Mark>(alloc: Global, roll: Roll) -> Option<Table<SureKeeper, M>>
    requires rows { M.inputs.rows ≡ [] }
    requires instances { M.inputs.instances ≡ [] }
    requires store { IsSome M.inputs.store.rows }
    requires telling { M.inputs.store.is_lost ≡ false }
    requires roll { roll.table_id ≡ M.inputs.roll }
    requires empty { roll.parts ≡ [] }
    ensures none_out { IfSome result (λ table. table.roll ≡ []) }
{
    let keeper = SureKeeper::new(Vec::new(alloc));
    Table::begin(alloc, keeper, Vec::new(alloc), Items::new(alloc), roll).ok()
}

/// The command that enqueues a batch, which a table takes in every state.
fn enqueue<M: Mark>(table: &Table<SureKeeper, M>, batch: Batch) -> Command
    ensures { IsLegalLine table.now.state result }
{
    show_limits(&batch);
    Command::Enqueue { named: None, batch }
}

/// How many works a reply says were placed.
fn count(reply: &Reply) -> usize {
    match reply {
        Reply::Enqueued(numbers) => numbers.len(),
        _ => 0,
    }
}

/// Places works in a table on an empty store, and gives how many they are. None where memory is
/// refused.
pub fn place(alloc: Global, batch: Batch) -> Option<usize> {
    let roll = Roll::new(alloc).ok()?;
    place_in::<Brand>(alloc, batch, roll)
}

/// The same, in a table of this mark, which says that the store is empty and tells its rows, and that
/// the roll is this one.
fn place_in<M: Mark>(alloc: Global, batch: Batch, roll: Roll) -> Option<usize>
    requires rows { M.inputs.rows ≡ [] }
    requires instances { M.inputs.instances ≡ [] }
    requires store { IsSome M.inputs.store.rows }
    requires telling { M.inputs.store.is_lost ≡ false }
    requires roll { roll.table_id ≡ M.inputs.roll }
    requires empty { roll.parts ≡ [] }
{
    let mut table = begin::<M>(alloc, roll)?;
    let command = enqueue(&table, batch);
    let reply = table.command(1, command);
    drop(table.end());
    let reply = reply.ok()?;
    let placed = count(&reply);
    drop(reply);
    Some(placed)
}
