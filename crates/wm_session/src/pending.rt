//! The texts of a table's events, as they are told to a sink.
ghost use Rattle.std.specs.Prelude.{◌≡◌, [], false, IfOk, OnOk};
ghost use Rattle.wm_io.specs.Pending.{IsGivenBut};
ghost use Rattle.wm_io.specs.Writing.{WriteCause};
ghost use Rattle.wm_session.specs.Pending.{pending_text, IsTold};
ghost use Rattle.wm_texts.specs.Texts.{last_text};

use crate::book::Stop;
use std::alloc::{AllocError, Global};
use wm_io::{HasText, Pending, Sink, WriteFault};
use wm_keeper::Keeper;
use wm_table::{Mark, Table};
use wm_texts::event_text;

/// The last event of a table, whose text is told.
#[derive(Drop)]
struct LastEvent<'a, K: Keeper, M: Mark> {
    table: &'a Table<K, M>,
}

impl<'a, K: Keeper, M: Mark> HasText for LastEvent<'a, K, M> {
    ghost text = { λ last. last_text last.table.now.first last.table.now.log };

    /// The text of the event; nothing where there is none.
    fn text(&self, alloc: Global) -> Result<Vec<u8>, AllocError> {
        match self.table.last_event() {
            Some(event) => event_text(alloc, event, self.table.last_notes(), self.table.hushed()),
            None => Ok(Vec::new(alloc)),
        }
    }
}

/// Puts the text of the table's last event behind what is pending, and writes that as far as the sink
/// takes it: why the session stops by that, where it does. Where memory is refused for the text, it is
/// still to be made.
pub fn tell_last<K: Keeper, W: Sink, M: Mark>(
    pending: &mut Pending,
    alloc: Global,
    table: &Table<K, M>,
    sink: &mut W,
) -> Option<Stop>
    requires { pending.old.untold ≡ false }
    ensures { IsTold W.given W.faults (last_text table.now.first table.now.log) pending.old pending.new
        sink.old sink.new result }
{
    match pending.tell(alloc, &LastEvent { table }, sink) {
        Ok(()) => None,
        Err(fault) => Some(Stop::from(fault)),
    }
}

/// Writes what is pending in the end, as far as the sink takes it; a text that is still to be made is
/// tried once more.
pub fn tell_rest<K: Keeper, W: Sink, M: Mark>(
    pending: &mut Pending,
    alloc: Global,
    table: &Table<K, M>,
    sink: &mut W,
) -> Result<(), WriteFault>
    ensures told { IsGivenBut (W.given sink.old) (W.given sink.new)
        (pending_text table.now pending.old) (pending_text table.now pending.new) }
    ensures all { OnOk result (pending_text table.now pending.new ≡ []) }
    ensures cause { WriteCause result (W.faults sink.old) (W.faults sink.new) }
{
    pending.finish(alloc, &LastEvent { table }, sink)
}
