//! The steps at the table of a roll: a part is given, comes back and is struck off.
ghost use Rattle.std.specs.Prelude.{◌≡◌, ◌≢◌, ◌+◌, ◌++◌, [], ◌∷◌, length};
ghost use Rattle.std.specs.List.{AllByRecursion};
ghost use Rattle.wm_roll.specs.Parts.{IsListed, without};
ghost use Rattle.wm_roll.specs.Rule.{IsRollOf, listed_of, no_part, with_listed, with_returned, Strikes};
ghost use Rattle.wm_roll.specs.declared.part.Part.{Part};
ghost use Rattle.wm_roll.specs.declared.view.View.TheVariants.{OfToken, Spent};

use crate::part::Part;
use crate::view::{Board, Place, View};
use atomic_table::{Join, Play, Split};
use std::marker::{Brand, PhantomData};

/// The part that a token is given for, for contracts alone. A call at [`Brand`] picks it.
pub(crate) trait Given {
    ghost part: { Part };
}

impl Given for Brand {
    ghost part = { no_part };
}

/// A part is given: the roll lists it, and a token has it.
struct Give<G> {
    given: PhantomData<G>,
}

impl<G: Given> Split<View> for Give<G> {
    ghost left = { with_listed G.part };

    ghost right = { λ _. OfToken G.part };
}

/// A token comes back.
struct Return;

impl Join<View> for Return {
    ghost both = { with_returned };

    ghost spent = { Spent };
}

/// The parts that came back are struck off the list.
struct Strike;

impl Play<(), View> for Strike {
    ghost then = { Strikes };
}

/// Lists the part, and makes the seat of its token.
pub(crate) fn give_seat<G: Given>(board: &Board, seat: &mut Place, part: Part) -> Place
    requires roll { IsRollOf board.now.table_id seat.old }
    requires given { part ≡ G.part }
    requires new { AllByRecursion (λ one. one.run ≢ part.run) (listed_of seat.old) }
    ensures roll { IsRollOf board.now.table_id seat.new }
    ensures listed { listed_of seat.new ≡ listed_of seat.old ++ part ∷ [] }
    ensures token { (result.table_id ≡ board.now.table_id) × (result.me ≡ (OfToken part, [])) }
{
    let _ = part;
    board.split_seat::<Give<G>>(seat)
}

/// Takes the seat of a token back, and strikes its part off the list.
pub(crate) fn take_seat(board: &Board, seat: &mut Place, back: Place, part: Part)
    requires roll { IsRollOf board.now.table_id seat.old }
    requires token { (back.table_id ≡ board.now.table_id) × (back.me ≡ (OfToken part, [])) }
    ensures roll { IsRollOf board.now.table_id seat.new }
    ensures stood { IsListed (listed_of seat.old) part }
    ensures listed { listed_of seat.new ≡ without part.run (listed_of seat.old) }
    ensures shorter { length (listed_of seat.new) + 1 ≡ length (listed_of seat.old) }
{
    let _ = part;
    board.join_seat::<Return>(seat, back);
    board.load::<Strike>(seat, 0);
}
