//! The loading of a store, for a table with some workers.
ghost use Rattle.std.specs.Prelude.{◌≡◌, ◌≤◌, ◌<◌, ◌^◌, [], length, vec_len, IfErr, IfOk};
ghost use Rattle.wm_beginning.specs.Loading.{IsLoadedOf};
ghost use Rattle.wm_beginning.specs.NotBegun.{IsNotBegun};
ghost use Rattle.wm_bench.specs.Places.{most_hands};
ghost use Rattle.wm_keeper.specs.Store.{told_before};
ghost use Rattle.wm_seating.specs.Hands.{instances_from};

use crate::instances::instances_of;
use std::alloc::{AllocError, Global};
use wm_bench::Hand;
use wm_collections::Items;
use wm_ended::{NotBegun, Status};
use wm_keeper::{Keeper, Row};
use wm_machine::Instance;
use wm_roll::Roll;
use wm_worker::Worker;

/// What a table may begin with.
pub struct Loaded<K, W, B> {
    /// The rows that the keeper loaded.
    pub rows: Vec<Row>,
    /// The instances of the workers, numbered from 0 in order.
    pub instances: Items<Instance>,
    /// The roll of the tickets that will be out. None is yet.
    pub roll: Roll,
    /// The workers, at most 10,000.
    pub hands: Vec<Hand<B>>,
    /// What will be written to.
    pub sink: W,
    /// What has loaded the rows, and keeps those of the table.
    pub keeper: K,
}

/// Loads the store of this name, and makes what else a table with these workers begins with.
///
/// A refusal gives everything back, with the status `KeeperFault` where the keeper failed, or `Memory`.
pub fn load<K: Keeper, W, B: Worker>(
    alloc: Global,
    store: &str,
    hands: Vec<Hand<B>>,
    sink: W,
    mut keeper: K,
) -> Result<Loaded<K, W, B>, NotBegun<K, W, B>>
    requires { vec_len hands ≤ most_hands }
    ensures loaded { IfOk result (IsLoadedOf K.store B.kind_of store.now hands keeper sink) }
    ensures not_begun { IfErr result (λ back. IsNotBegun K.store (instances_from B.kind_of 0 hands.items)
        hands.items (told_before (K.store keeper).rows (K.store back.keeper).rows) keeper sink back) }
{
    let rows = match keeper.load(store) {
        Ok(rows) => rows,
        Err(fault) => {
            let status = Status::from(fault);
            return Err(NotBegun::before_opening(status, keeper, sink, hands));
        }
    };
    let Ok(made) = instances_and_roll(alloc, &hands) else {
        drop(rows);
        return Err(NotBegun::before_opening(Status::Memory, keeper, sink, hands));
    };
    let (instances, roll) = made;
    Ok(Loaded {
        rows,
        instances,
        roll,
        hands,
        sink,
        keeper,
    })
}

/// The instances of these workers, and a roll on which no part stands.
fn instances_and_roll<B: Worker>(
    alloc: Global,
    hands: &[Hand<B>],
) -> Result<(Items<Instance>, Roll), AllocError>
    requires { length hands.now < 2 ^ 32 }
    ensures instances { IfOk result (λ made. made.0 ≡ instances_from B.kind_of 0 hands.now) }
    ensures roll { IfOk result (λ made. made.1.parts ≡ []) }
{
    let instances = instances_of(alloc, hands)?;
    let roll = Roll::new(alloc)?;
    Ok((instances, roll))
}
