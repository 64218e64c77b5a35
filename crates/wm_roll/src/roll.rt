//! The roll: the parts that are out.
ghost use Rattle.std.specs.Prelude.{◌≡◌, ◌≢◌, ◌+◌, [], ◌∷◌, ◌++◌, length, IfOk};
ghost use Rattle.std.specs.List.{AllByRecursion};
ghost use Rattle.wm_collections.specs.Lists.{AllLater};
ghost use Rattle.wm_roll.specs.Parts.{DifferInRun, IsListed, without};

use crate::part::Part;
use crate::steps::{give_seat, take_seat};
use crate::token::Token;
use crate::view::{Place, RollTable};
use std::alloc::{AllocError, Global};
use std::marker::{Brand, Model};

/// The parts that are out, no two of them of one run. A contract sees which roll it is, and the
/// list of its parts, in the order in which they were given.
#[derive(Drop)]
pub struct Roll {
    table: RollTable,
    seat: Place,
}

impl Model for Roll {
    ghost use Rattle.wm_roll.specs.Rule.{IsRollOf, listed_of};
    ghost use Rattle.wm_roll.specs.Views.{RollView};

    ghost Value = { RollView };

    ghost view = { λ r. record { table_id = r.seat.table_id; parts = listed_of r.seat } };

    ghost invariant = { λ r. IsRollOf r.table.shared.table_id r.seat };
}

impl Roll {
    /// A roll on which no part stands.
    pub fn new(alloc: Global) -> Result<Roll, AllocError>
        ensures { IfOk result (λ roll. roll.parts ≡ []) }
    {
        let (table, seat) = RollTable::of_words(alloc, &[0], &())?;
        Ok(Roll { table, seat })
    }

    /// Lists a part, whose run isn't out, and gives its token. It takes no memory.
    pub fn give(&mut self, part: Part) -> Token
        requires new { AllByRecursion (λ one. one.run ≢ part.run) self.old.parts }
        ensures parts { self.new.parts ≡ self.old.parts ++ part ∷ [] }
        ensures differ { AllLater DifferInRun self.new.parts }
        ensures token { result.part ≡ part }
        ensures own { result.table_id ≡ self.new.table_id }
        ensures same { self.new.table_id ≡ self.old.table_id }
    {
        let table = &self.table;
        let seat = give_seat::<Brand>(&table.shared, &mut self.seat, part);
        Token { part, seat }
    }

    /// Takes a token of this roll back, and its part off the list, on which it stood. It takes no
    /// memory.
    pub fn take(&mut self, token: Token) -> Part
        requires own { token.table_id ≡ self.old.table_id }
        ensures part { result ≡ token.part }
        ensures stood { IsListed self.old.parts token.part }
        ensures parts { self.new.parts ≡ without token.part.run self.old.parts }
        ensures shorter { length self.new.parts + 1 ≡ length self.old.parts }
        ensures differ { AllLater DifferInRun self.new.parts }
        ensures same { self.new.table_id ≡ self.old.table_id }
    {
        let Token { part, seat } = token;
        let table = &self.table;
        take_seat(&table.shared, &mut self.seat, seat, part);
        part
    }
}
