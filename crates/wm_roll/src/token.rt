//! What whoever has a run has of the roll.
use crate::part::Part;
use crate::view::Place;
use std::marker::Model;

/// What whoever has a run has of the roll that lists it. It can't be let go: the roll takes it
/// back. A contract sees which roll gave it, and its part.
pub struct Token {
    pub(crate) part: Part,
    pub(crate) seat: Place,
}

impl Model for Token {
    ghost use Rattle.std.specs.Prelude.{◌≡◌, []};
    ghost use Rattle.wm_roll.specs.Views.{TokenView};
    ghost use Rattle.wm_roll.specs.declared.view.View.TheVariants.{OfToken};

    ghost Value = { TokenView };

    ghost view = { λ t. record { table_id = t.seat.table_id; part = t.part } };

    ghost invariant = { λ t. t.seat.me ≡ (OfToken t.part, []) };
}

impl Token {
    ghost use Rattle.std.specs.Prelude.{◌≡◌};

    /// The part that it was given for.
    pub fn part(&self) -> Part
        ensures { result ≡ self.now.part }
    {
        self.part
    }
}
