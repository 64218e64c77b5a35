//! What the seats at the table of a desk know, and the rule that holds between them.
ghost use Rattle.std.specs.Prelude.{[]};
ghost use Rattle.wm_callers.specs.Rule.{IsKept, desk_view};

use crate::entry::Signed;
use atomic_table::{Seat, Shared, Table, TableRule};
use std::alloc::Global;

/// What a caller knows: its number, the entries that it has seen, and the places of its own. No
/// value of it is made, and a clause reads the arrays as lists.
pub struct Own {
    pub number: u32,
    pub seen: [Signed; 0],
    pub mine: [u64; 0],
}

/// What the desk knows: all entries, and what others showed it.
pub struct DeskKnows {
    pub all: [Signed; 0],
    pub kept: [Own; 0],
}

/// What a pass knows, and what it knew or was shown before.
pub struct PassKnows {
    pub own: Own,
    pub kept: [Own; 0],
}

/// What a seat at the table of a desk knows. No value of it is made.
pub enum View {
    /// The desk's seat.
    OfDesk(DeskKnows),
    /// The seat of a pass, or of a note of what another seat has seen.
    OfPass(PassKnows),
    /// The seat of a pass or a note that came back.
    Spent,
}

/// What holds of all seats at the table of a desk, between any two steps.
pub struct Rule;

impl TableRule<(), View, ()> for Rule {
    ghost holds = { λ _ state. IsKept state.words state.views };

    ghost first = { λ _. desk_view [] };
}

/// The table of a desk: one word, which counts the entries.
pub type DeskTable = Table<(), View, (), Rule, Global>;

/// What the seats of a desk step at.
pub type Board = Shared<(), View, (), Rule>;

/// The seat of a desk or of a pass.
pub type Place = Seat<(), View>;
