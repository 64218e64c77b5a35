//! The steps at the table of a desk: a pass is made and comes back, and seats show each other what they
//! have seen.
ghost use Rattle.std.specs.Prelude.{◌≡◌, ◌+◌, ◌<◌, ◌^◌, ◌++◌, [], ◌∷◌, length};
ghost use mathlib.Core.List.{IsPrefix};
ghost use Rattle.wm_callers.specs.Rule.{all_of, own_of, fresh, with_call, Fits, IsDeskSeat, IsPassSeat};

use crate::kinds::{Add, Compare, Given, Keep, Lengthen, NewPass, Note, Numbered, Signing};
use crate::view::{Board, Place};
use std::snapshot::Snapshot;
use wm_machine::{Command, Reply};

/// Makes the seat of a pass that has seen nothing.
pub(crate) fn admit<N: Numbered>(board: &Board, desk: &mut Place, number: u32) -> Place
    requires desk { IsDeskSeat board.now.table_id desk.old }
    requires given { number ≡ N.number }
    ensures desk { IsDeskSeat board.now.table_id desk.new }
    ensures all { all_of desk.new ≡ all_of desk.old }
    ensures pass { IsPassSeat board.now.table_id result }
    ensures own { own_of result ≡ fresh number }
{
    let _ = number;
    board.split_seat::<NewPass<N>>(desk)
}

/// Shows the desk what a pass has seen, which begins the desk's entries.
pub(crate) fn show(board: &Board, desk: &mut Place, pass: &mut Place)
    requires desk { IsDeskSeat board.now.table_id desk.old }
    requires pass { IsPassSeat board.now.table_id pass.old }
    ensures desk { IsDeskSeat board.now.table_id desk.new }
    ensures pass { IsPassSeat board.now.table_id pass.new }
    ensures all { all_of desk.new ≡ all_of desk.old }
    ensures own { own_of pass.new ≡ own_of pass.old }
    ensures begins { IsPrefix (own_of pass.new).seen (all_of desk.new) }
{
    let note = board.split_seat::<Note>(pass);
    board.join_seat::<Keep>(desk, note);
    board.load::<Compare>(desk, 0);
}

/// Adds an entry of the caller of a pass, and shows it all entries.
pub(crate) fn sign<G: Given>(
    board: &Board,
    desk: &mut Place,
    pass: &mut Place,
    number: u32,
    line: u32,
    asked: &Snapshot<Command>,
    reply: &Reply,
) -> u64
    requires desk { IsDeskSeat board.now.table_id desk.old }
    requires pass { IsPassSeat board.now.table_id pass.old }
    requires given { record { caller = number; line = line; command = asked.now.value; reply = reply.now } ≡ G.entry }
    requires room { length (all_of desk.old) + 1 < 2 ^ 64 }
    ensures desk { IsDeskSeat board.now.table_id desk.new }
    ensures pass { IsPassSeat board.now.table_id pass.new }
    ensures place { result ≡ length (all_of desk.old) }
    ensures all { all_of desk.new ≡ all_of desk.old ++ record { caller = number; line = line; command = asked.now.value; reply = reply.now } ∷ [] }
    ensures own { own_of pass.new ≡ with_call (own_of pass.old) (all_of desk.new) result }
{
    let _ = number;
    let _ = line;
    let _ = asked;
    let _ = reply;
    let place = board.fetch_add::<Add<G>>(desk, 0, 1);
    let note = board.split_seat::<Note>(desk);
    board.join_seat::<Signing>(pass, note);
    place
}

/// Lets a pass see what another seat has seen, and learns that it and what the pass had seen begin
/// what it has seen now.
pub(crate) fn learn(board: &Board, from: &mut Place, into: &mut Place)
    requires from { IsPassSeat board.now.table_id from.old }
    requires into { IsPassSeat board.now.table_id into.old }
    requires word { board.now.table_id.words ≡ 1 }
    ensures from { IsPassSeat board.now.table_id from.new }
    ensures into { IsPassSeat board.now.table_id into.new }
    ensures same { own_of from.new ≡ own_of from.old }
    ensures number { (own_of into.new).number ≡ (own_of into.old).number }
    ensures mine { (own_of into.new).mine ≡ (own_of into.old).mine }
    ensures later { IsPrefix (own_of into.old).seen (own_of into.new).seen }
    ensures met { IsPrefix (own_of from.old).seen (own_of into.new).seen }
{
    let note = board.split_seat::<Note>(from);
    board.join_seat::<Lengthen>(into, note);
    board.load::<Compare>(into, 0);
}

/// Lets a pass see all entries.
pub(crate) fn look(board: &Board, desk: &mut Place, pass: &mut Place)
    requires desk { IsDeskSeat board.now.table_id desk.old }
    requires pass { IsPassSeat board.now.table_id pass.old }
    requires begins { IsPrefix (own_of pass.old).seen (all_of desk.old) }
    ensures desk { IsDeskSeat board.now.table_id desk.new }
    ensures pass { IsPassSeat board.now.table_id pass.new }
    ensures all { all_of desk.new ≡ all_of desk.old }
    ensures own { own_of pass.new ≡ record (own_of pass.old) { seen = all_of desk.old } }
{
    let note = board.split_seat::<Note>(desk);
    board.join_seat::<Lengthen>(pass, note);
    board.load::<Compare>(pass, 0);
}

/// Takes the seat of a pass back, and learns that what it knows fits all entries.
pub(crate) fn take_back(board: &Board, desk: &mut Place, pass: Place)
    requires desk { IsDeskSeat board.now.table_id desk.old }
    requires pass { IsPassSeat board.now.table_id pass }
    ensures desk { IsDeskSeat board.now.table_id desk.new }
    ensures all { all_of desk.new ≡ all_of desk.old }
    ensures fits { Fits (all_of desk.old) (own_of pass) }
{
    board.join_seat::<Keep>(desk, pass);
    board.load::<Compare>(desk, 0);
}
