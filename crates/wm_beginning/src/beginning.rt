//! A table beside the bench of its workers, over rows that were loaded.
ghost use Rattle.std.specs.Prelude.{◌≡◌, [], IfErr, IfOk, IfSome, Some};
ghost use Rattle.wm_beginning.specs.Begun.{AreBenched, HasBegun, IsGiven};
ghost use Rattle.wm_beginning.specs.Loading.{MayBegin};
ghost use Rattle.wm_beginning.specs.NotBegun.{IsNotBegun};
ghost use Rattle.wm_bench.specs.Places.{idle_hands};

use crate::loading::Loaded;
use std::alloc::{AllocFailed, Global};
use wm_bench::Bench;
use wm_collections::Items;
use wm_ended::{NotBegun, Status};
use wm_keeper::{Keeper, Row};
use wm_machine::Instance;
use wm_roll::Roll;
use wm_table::{Mark, Table};
use wm_worker::Worker;

/// A table that has just begun, beside the bench of its workers, and what will be written to.
pub struct Begun<K: Keeper, W, B, M: Mark> {
    pub table: Table<K, M>,
    pub bench: Bench<B>,
    pub sink: W,
}

/// Opens the rows that were loaded, with the instances of the workers, and gives the table beside the
/// bench of them. The mark is what the run is given.
///
/// A refusal gives everything back, and the rows held are as they were. Its status is `BadStore` exactly
/// where the rows aren't sound, with the first one that has a fault; `KeeperFault` where the keeper failed;
/// or `Memory`.
pub fn begin<K: Keeper, W, B: Worker, M: Mark>(
    alloc: Global,
    loaded: Loaded<K, W, B>,
) -> Result<Begun<K, W, B, M>, NotBegun<K, W, B>>
    requires may { MayBegin K.store B.kind_of loaded }
    requires given { IsGiven M.inputs (K.store loaded.keeper) loaded.rows.items loaded.instances
        loaded.roll.table_id }
    ensures begun { IfOk result (λ begun. HasBegun K.store B.kind_of M.inputs loaded.hands.items loaded.sink
        begun.table begun.bench begun.sink) }
    ensures not_begun { IfErr result (IsNotBegun K.store loaded.instances loaded.hands.items
        (Some loaded.rows.items) loaded.keeper loaded.sink) }
{
    let Loaded {
        rows,
        instances,
        roll,
        hands,
        sink,
        keeper,
    } = loaded;
    match Bench::new(alloc, hands) {
        Ok(bench) => begin_beside(alloc, rows, instances, roll, bench, sink, keeper),
        Err(failed) => {
            let AllocFailed { value } = failed;
            Err(NotBegun::before_opening(Status::Memory, keeper, sink, value))
        }
    }
}

/// Opens the rows that were loaded, with the instances of the workers on this bench, and gives the table
/// beside it.
fn begin_beside<K: Keeper, W, B: Worker, M: Mark>(
    alloc: Global,
    rows: Vec<Row>,
    instances: Items<Instance>,
    roll: Roll,
    bench: Bench<B>,
    sink: W,
    keeper: K,
) -> Result<Begun<K, W, B, M>, NotBegun<K, W, B>>
    requires given { IsGiven M.inputs (K.store keeper) rows.items instances roll.table_id }
    requires roll { roll.parts ≡ [] }
    requires benched { AreBenched B.kind_of bench instances }
    requires rows { IfSome (K.store keeper).rows (λ held. rows.items ≡ held) }
    ensures begun { IfOk result (λ begun. HasBegun K.store B.kind_of M.inputs (idle_hands bench) sink
        begun.table begun.bench begun.sink) }
    ensures not_begun { IfErr result (IsNotBegun K.store instances (idle_hands bench)
        (Some rows.items) keeper sink) }
{
    match Table::begin(alloc, keeper, rows, instances, roll) {
        Ok(table) => Ok(Begun { table, bench, sink }),
        Err(refused) => {
            let (keeper, fault) = refused;
            Err(NotBegun {
                status: Status::from(fault),
                at_opening: fault.is_at_commit(),
                keeper,
                sink,
                hands: bench.back(),
            })
        }
    }
}
