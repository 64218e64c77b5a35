//! A desk that is to be opened.
ghost use Rattle.std.specs.Prelude.{◌≡◌, IfOk};

use crate::view::{DeskTable, Place};
use std::alloc::{AllocError, Global};
use std::marker::Model;
use std::sync::ledger::Blank;

/// A desk that is to be opened: its table of seats, and two ledgers with a part for each caller. A
/// contract sees by which names they are told from others, and how many callers there are. It is made
/// before its [`Desk`](crate::Desk), whose mark speaks of it.
#[derive(Drop)]
pub struct Opening {
    pub(crate) table: DeskTable,
    pub(crate) seat: Place,
    pub(crate) calls: Blank,
    pub(crate) faults: Blank,
    pub(crate) callers: u32,
}

impl Model for Opening {
    ghost use Rattle.wm_callers.specs.Openings.{OpeningState, OpeningInvariant};

    ghost Value = { OpeningState };

    ghost view = { λ o. record { board = o.table.shared.table_id; callers = o.callers; calls = o.calls.name; refusals = o.faults.name } };

    ghost invariant = { λ o. OpeningInvariant o.table.shared.table_id o.seat o.calls.parts o.faults.parts o.callers };
}

impl Opening {
    /// What a desk for so many callers is opened with. Refused only where memory is.
    pub fn new(alloc: Global, callers: u32) -> Result<Opening, AllocError>
        ensures { IfOk result (λ opening. opening.callers ≡ callers) }
    {
        let (table, seat) = DeskTable::of_words(alloc, &[0], &())?;
        Ok(Opening {
            table,
            seat,
            calls: Blank::new(callers as u64),
            faults: Blank::new(callers as u64),
            callers,
        })
    }
}
