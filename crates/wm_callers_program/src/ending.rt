//! The end: the text of the log is written, and everything is handed back.
ghost use Rattle.std.specs.Prelude.{◌≡◌, [], map};
ghost use Rattle.wm_callers_program.specs.Ended.{CallsComeFirst};
ghost use Rattle.wm_callers_program.specs.Ending.{IsHandedOver};
ghost use Rattle.wm_seating.specs.Bench.{instance_traits, place_traits, NoneAway};
ghost use Rattle.wm_ended.specs.Tells.{tells_of};

use crate::texts::write_log;
use std::alloc::Global;
use wm_bench::Bench;
use wm_ended::{Ended, Status};
use wm_io::Sink;
use wm_keeper::Keeper;
use wm_table::{Mark, Table, TableEnd, Trouble};
use wm_worker::Worker;

/// Ends a table at which callers called their lines, after which something was refused or nothing was:
/// writes the text of its log, and hands everything back.
pub(crate) fn end_table<K: Keeper, W: Sink, B: Worker, M: Mark>(
    alloc: Global,
    table: Table<K, M>,
    bench: Bench<B>,
    refused: Option<Trouble>,
    mut sink: W,
) -> Ended<K, W, B>
    requires none_out { table.roll ≡ [] }
    requires calls { CallsComeFirst table.log }
    requires workers { map (place_traits B.kind_of) bench ≡ map instance_traits table.state.instances }
    requires at_rest { NoneAway bench }
    ensures { IsHandedOver (tells_of K.store W.given W.faults B.kind_of B.diary_of) M.inputs
        refused table sink result }
{
    let TableEnd {
        first,
        last,
        log,
        keeper,
    } = table.end();
    let written = write_log(alloc, first.hushed, log.as_slice(), &mut sink);
    Ended {
        status: Status::of_end(refused, written),
        began: true,
        at_opening: false,
        first,
        log,
        last,
        keeper,
        sink,
        hands: bench.back(),
    }
}
