//! What callers have of a desk, and how a desk deals it out and takes it back.
ghost use Rattle.std.specs.Prelude.{◌≡◌, ◌+◌, ◌<◌, ◌≤◌, [], length, map, sum, vec_capacity};
ghost use Rattle.std.specs.List.{AllByRecursion};
ghost use Rattle.wm_callers.specs.Closing.{fresh_pass, fresh_passes, FitsIn};
ghost use Rattle.wm_callers.specs.Rule.{all_of, IsDeskSeat};

use crate::mark::{CallsOf, DeskMark, FaultsOf};
use crate::steps::{admit, take_back};
use crate::view::{Board, Place};
use std::marker::{Brand, Model};
use std::sync::ledger::Share;
use wm_machine::Reply;

/// What a call gave: its place among all calls of the desk, from 0, and the reply.
#[derive(Drop)]
pub struct Receipt {
    pub place: u64,
    pub reply: Reply,
}

/// What a caller has of a desk. It has no way to be let go: it is given back when the desk is closed. A
/// contract sees the number of the caller, the entries that it has seen, the places of its own, and how
/// many faults of the keeper it met. Its type keeps that these are some of the places at which what it
/// has seen has its number, in order.
pub struct Pass<J: DeskMark> {
    pub(crate) number: u32,
    pub(crate) seat: Place,
    pub(crate) made: Share<CallsOf<J>>,
    pub(crate) met: Share<FaultsOf<J>>,
}

impl<J: DeskMark> Model for Pass<J> {
    ghost use Rattle.wm_callers.specs.PassState.{PassState};
    ghost use Rattle.wm_callers.specs.Invariants.{PassInvariant, pass_state};

    ghost Value = { PassState };

    ghost view = { λ p. pass_state p.number p.seat p.met.amount };

    ghost invariant = { λ p. PassInvariant J.desk p.number p.seat p.made.parts p.made.amount p.met.parts };
}

/// The pass of a new caller.
fn deal_one<J: DeskMark>(
    board: &Board,
    seat: &mut Place,
    made: &mut Share<CallsOf<J>>,
    met: &mut Share<FaultsOf<J>>,
    number: u32,
) -> Pass<J>
    requires board { board.now.table_id ≡ J.desk.board }
    requires seat { IsDeskSeat J.desk.board seat.old }
    requires made { (0 < made.old.parts) × (made.old.amount ≡ 0) }
    requires met { (0 < met.old.parts) × (met.old.amount ≡ 0) }
    ensures fresh { result ≡ fresh_pass number }
    ensures seat { IsDeskSeat J.desk.board seat.new }
    ensures all { all_of seat.new ≡ all_of seat.old }
    ensures made { (made.new.parts + 1 ≡ made.old.parts) × (made.new.amount ≡ 0) }
    ensures met { (met.new.parts + 1 ≡ met.old.parts) × (met.new.amount ≡ 0) }
{
    let its = admit::<Brand>(board, seat, number);
    Pass {
        number,
        seat: its,
        made: made.split_off(1, 0),
        met: met.split_off(1, 0),
    }
}

/// The passes of so many callers, in a list that has room for them. It takes no memory.
pub(crate) fn deal<J: DeskMark>(
    board: &Board,
    seat: &mut Place,
    made: &mut Share<CallsOf<J>>,
    met: &mut Share<FaultsOf<J>>,
    room: Vec<Pass<J>>,
    callers: u32,
) -> Vec<Pass<J>>
    requires board { board.now.table_id ≡ J.desk.board }
    requires seat { IsDeskSeat J.desk.board seat.old }
    requires made { (made.old.parts ≡ callers) × (made.old.amount ≡ 0) }
    requires met { (met.old.parts ≡ callers) × (met.old.amount ≡ 0) }
    requires none { room.items ≡ [] }
    requires room { callers ≤ vec_capacity room }
    ensures fresh { result.items ≡ fresh_passes callers }
    ensures seat { IsDeskSeat J.desk.board seat.new }
    ensures all { all_of seat.new ≡ all_of seat.old }
    ensures made { (made.new.parts ≡ 0) × (made.new.amount ≡ 0) }
    ensures met { (met.new.parts ≡ 0) × (met.new.amount ≡ 0) }
{
    let mut passes = room;
    for number in 0..callers {
        passes.push_reserved(deal_one(board, seat, made, met, number));
    }
    passes
}

/// Takes a pass back, and learns that what it knows fits all entries.
fn take<J: DeskMark>(
    board: &Board,
    seat: &mut Place,
    made: &mut Share<CallsOf<J>>,
    met: &mut Share<FaultsOf<J>>,
    pass: Pass<J>,
)
    requires board { board.now.table_id ≡ J.desk.board }
    requires seat { IsDeskSeat J.desk.board seat.old }
    ensures seat { IsDeskSeat J.desk.board seat.new }
    ensures all { all_of seat.new ≡ all_of seat.old }
    ensures fits { FitsIn (all_of seat.old) pass }
    ensures made { (made.new.parts ≡ made.old.parts + 1) × (made.new.amount ≡ made.old.amount + length pass.mine) }
    ensures met { (met.new.parts ≡ met.old.parts + 1) × (met.new.amount ≡ met.old.amount + pass.units) }
{
    let Pass {
        number: _,
        seat: its,
        made: calls,
        met: faults,
    } = pass;
    take_back(board, seat, its);
    made.merge(calls);
    met.merge(faults);
}

/// Takes all passes back.
pub(crate) fn gather<J: DeskMark>(
    board: &Board,
    seat: &mut Place,
    made: &mut Share<CallsOf<J>>,
    met: &mut Share<FaultsOf<J>>,
    mut passes: Vec<Pass<J>>,
)
    requires board { board.now.table_id ≡ J.desk.board }
    requires seat { IsDeskSeat J.desk.board seat.old }
    requires made { (made.old.parts ≡ 0) × (made.old.amount ≡ 0) }
    requires met { (met.old.parts ≡ 0) × (met.old.amount ≡ 0) }
    ensures fits { AllByRecursion (FitsIn (all_of seat.old)) passes.items }
    ensures made { (made.new.parts ≡ length passes.items) × (made.new.amount ≡ sum (map (λ pass. length pass.mine) passes.items)) }
    ensures met { (met.new.parts ≡ length passes.items) × (met.new.amount ≡ sum (map (λ pass. pass.units) passes.items)) }
{
    while let Some(pass) = passes.pop() {
        take(board, seat, made, met, pass);
    }
    passes.destroy_empty();
}
