//! The instances that the given workers are.
ghost use Rattle.std.specs.Prelude.{◌≡◌, ◌^◌, ◌<◌, length, IfOk};
ghost use Rattle.wm_seating.specs.Hands.{instances_from};

use std::alloc::{AllocError, Global};
use wm_bench::Hand;
use wm_collections::{Items, Replica};
use wm_machine::Instance;
use wm_worker::Worker;

/// The instances that these workers are, numbered from 0 in order.
pub(crate) fn instances_of<B: Worker>(
    alloc: Global,
    hands: &[Hand<B>],
) -> Result<Items<Instance>, AllocError>
    requires { length hands.now < 2 ^ 32 }
    ensures { IfOk result (λ instances. instances ≡ instances_from B.kind_of 0 hands.now) }
{
    let mut instances = Items::new(alloc);
    let mut number = 0;
    for hand in hands {
        instances.push(Instance {
            number,
            class: hand.class.replica(alloc)?,
            kind: hand.worker.kind(),
            out: false,
            retired: false,
        })?;
        number += 1;
    }
    Ok(instances)
}
