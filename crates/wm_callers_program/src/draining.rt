//! The drain after the calls: all that may start is driven to its end.
ghost use Rattle.wm_callers_program.specs.Drained.{IsSettled};
ghost use Rattle.wm_seating.specs.Idle.{IsIdle};

use wm_keeper::Keeper;
use wm_live::{Stand, drain_at};
use wm_pool::Gate;
use wm_table::{Mark, Trouble};
use wm_worker::Worker;

/// Drains what a desk handed back, where no call was refused, and passes the gate before each turn of a
/// run: why something was refused by then.
pub(crate) fn settle<K: Keeper, B: Worker, M: Mark, G: Gate>(
    stand: &mut Stand<K, B, M>,
    gate: &G,
    refused: Option<Trouble>,
) -> Option<Trouble>
    requires { IsIdle B.kind_of stand.old.table stand.old.places }
    ensures { IsSettled K.store B.kind_of refused result stand.old stand.new }
{
    match refused {
        Some(trouble) => Some(trouble),
        None => match drain_at(stand, gate) {
            Ok(()) => None,
            Err(trouble) => Some(trouble),
        },
    }
}
