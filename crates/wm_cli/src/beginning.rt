//! How a run begins: the book of a table that has just begun, or how the run ends without one.
ghost use Rattle.std.specs.Prelude.{◌≡◌, [], IfErr, IfOk};
ghost use Rattle.wm_bench.specs.Places.{idle_hands};
ghost use Rattle.wm_cli.specs.Ended.{IsEndedAtOnce, IsEndedBeforeLines};
ghost use Rattle.wm_cli.specs.Setup.{IsSetUp};
ghost use Rattle.wm_ended.specs.Tells.{tells_of};
ghost use Rattle.wm_session.specs.BetweenRuns.{IsAtBegin};

use std::alloc::Global;
use wm_beginning::Begun;
use wm_bench::Hand;
use wm_collections::Items;
use wm_io::Sink;
use wm_keeper::Keeper;
use wm_machine::Command;
use wm_session::{Book, Ended, Status};
use wm_table::{Mark, Table, TableEnd};
use wm_worker::Worker;

/// The book that these commands are executed in, of a table that has just begun beside the bench of its
/// workers, or how the run ends for want of memory. The mark is what the run is given.
pub fn open_book<W: Sink, K: Keeper, B: Worker, M: Mark>(
    alloc: Global,
    begun: Begun<K, W, B, M>,
    commands: Items<Command>,
) -> Result<Book<K, W, B, M>, Ended<K, W, B>>
    requires set_up { IsSetUp (tells_of K.store W.given W.faults B.kind_of B.diary_of) M.inputs commands
        begun.table begun.bench begun.sink }
    // The book has all of the commands before it, and the workers at their places.
    ensures begins { IfOk result (IsAtBegin commands) }
    ensures workers { IfOk result (λ book. idle_hands book.places ≡ idle_hands begun.bench) }
    // Without a book the run is over.
    ensures ended { IfErr result (IsEndedBeforeLines
        (tells_of K.store W.given W.faults B.kind_of B.diary_of) M.inputs (idle_hands begun.bench)) }
{
    let Begun { table, bench, sink } = begun;
    match Book::<K, W, B, M>::new(alloc, table, bench, commands, sink) {
        Ok(book) => Ok(book),
        Err(parts) => {
            let (table, bench, sink) = parts;
            Err(end_at_once(table, bench.back(), sink))
        }
    }
}

/// Ends a run for want of memory whose table was begun, before its first event.
fn end_at_once<W: Sink, K: Keeper, B: Worker, M: Mark>(
    table: Table<K, M>,
    hands: Vec<Hand<B>>,
    sink: W,
) -> Ended<K, W, B>
    requires none_out { table.roll ≡ [] }
    ensures { IsEndedAtOnce table sink hands result }
{
    let TableEnd {
        first,
        last,
        log,
        keeper,
    } = table.end();
    Ended {
        status: Status::Memory,
        began: true,
        at_opening: false,
        first,
        log,
        last,
        keeper,
        sink,
        hands,
    }
}
