//! What the seats at the table of a roll know, and the rule that holds between them.
ghost use Rattle.wm_roll.specs.Rule.{IsKept, first_view};

use crate::part::Part;
use atomic_table::{Seat, Shared, Table, TableRule};
use std::alloc::Global;

/// What the roll knows. No value of it is made, and a clause reads its arrays as lists.
pub struct Lists {
    /// The parts that are out.
    pub listed: [Part; 0],
    /// The parts whose tokens came back, and that are still listed.
    pub returned: [Part; 0],
}

/// What a seat at the table of a roll knows. No value of it is made.
pub enum View {
    /// The roll's seat.
    OfRoll(Lists),
    /// The seat of a token.
    OfToken(Part),
    /// The seat of a token that came back.
    Spent,
}

/// What holds of all seats at the table of a roll, between any two steps.
pub struct Rule;

impl TableRule<(), View, ()> for Rule {
    ghost holds = { λ _ state. IsKept state.views };

    ghost first = { λ _. first_view };
}

/// The table of a roll.
pub type RollTable = Table<(), View, (), Rule, Global>;

/// What the seats of a roll step at.
pub type Board = Shared<(), View, (), Rule>;

/// The seat of a roll or of a token.
pub type Place = Seat<(), View>;
