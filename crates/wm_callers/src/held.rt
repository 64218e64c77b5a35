//! What stands under the lock of a desk.
ghost use Rattle.std.specs.Prelude.{◌≡◌, IfOk, IfErr};
ghost use Rattle.wm_callers.specs.Calls.{IsCalled, IsLooked, IsRefused};
ghost use Rattle.wm_callers.specs.ForDesk.{IsForDesk};
ghost use Rattle.wm_seating.specs.Idle.{IsIdle};
ghost use Rattle.wm_callers.specs.Invariants.{HeldInvariant, PassInvariant, pass_state};
ghost use Rattle.wm_callers.specs.Told.{told_of};
ghost use Rattle.wm_machine.specs.Outcome.{IsAskable};

use crate::mark::{CallsOf, DeskMark, FaultsOf};
use crate::pass::{Pass, Receipt};
use crate::steps::{look, show, sign};
use crate::tally::Tally;
use crate::view::{Board, Place};
use std::marker::{Brand, Model};
use std::snapshot::Snapshot;
use std::sync::ledger::Share;
use wm_bench::Bench;
use wm_keeper::Keeper;
use wm_machine::Command;
use wm_seating::retire_last;
use wm_table::{Mark, Table, Trouble};
use wm_worker::Worker;

/// What stands under the lock: table and bench, the caller of each command of the log, the seat that
/// knows all entries, and the books of the two ledgers. Its type keeps that the entries stand for the log
/// and are as many as the calls, that the keeper has counted as many faults as the callers met, and that
/// no run is out.
pub(crate) struct Held<K: Keeper, B: Worker, M: Mark, J: DeskMark> {
    pub(crate) table: Table<K, M>,
    pub(crate) bench: Bench<B>,
    pub(crate) callers: Vec<u32>,
    pub(crate) seat: Place,
    pub(crate) calls: Tally<CallsOf<J>>,
    pub(crate) faults: Tally<FaultsOf<J>>,
}

impl<K: Keeper, B: Worker, M: Mark, J: DeskMark> Model for Held<K, B, M, J> {
    ghost use Rattle.wm_seating.specs.Idle.{IsIdle};
    ghost use Rattle.wm_callers.specs.Invariants.{HeldInvariant};
    ghost use Rattle.wm_callers.specs.Told.{told_of};
    ghost use Rattle.wm_engine.specs.TableState.{TableState};

    ghost Value = { TableState K };

    ghost view = { λ h. h.table };

    ghost invariant = { λ h. IsIdle B.kind_of h.table h.bench × HeldInvariant J.desk (told_of K.store h.table) h.callers.items h.seat h.calls.book.total h.faults.book.total };
}

impl<K: Keeper, B: Worker, M: Mark, J: DeskMark> Held<K, B, M, J> {
    /// Executes a command for the caller of a pass.
    pub(crate) fn call(
        &mut self,
        board: &Board,
        pass: &mut Pass<J>,
        line: u32,
        command: Command,
    ) -> Result<Receipt, Trouble>
        requires board { board.now.table_id ≡ J.desk.board }
        requires askable { IsAskable command }
        requires fits { IsForDesk command }
        ensures ok { IfOk result (λ receipt. IsCalled line command receipt pass.old pass.new) }
        ensures err { IfErr result (λ trouble. IsRefused trouble pass.old pass.new) }
    {
        let Held {
            table,
            bench,
            callers,
            seat,
            calls,
            faults,
        } = self;
        let Pass {
            number,
            seat: its,
            made,
            met,
        } = pass;
        carry(
            board, table, bench, callers, seat, calls, faults, *number, its, made, met, line,
            command,
        )
    }

    /// Shows the caller of a pass all entries, and answers how many they are.
    pub(crate) fn look(&mut self, board: &Board, pass: &mut Pass<J>) -> u64
        requires board { board.now.table_id ≡ J.desk.board }
        ensures { IsLooked result pass.old pass.new }
    {
        let Held {
            table: _,
            bench: _,
            callers,
            seat,
            calls: _,
            faults: _,
        } = self;
        let Pass {
            number: _,
            seat: its,
            made: _,
            met: _,
        } = pass;
        show(board, seat, its);
        look(board, seat, its);
        callers.len() as u64
    }
}

/// Executes a command for the caller of a pass, on the parts of both. Room for the caller is taken first,
/// so that nothing can fail after the table's event.
fn carry<K: Keeper, B: Worker, M: Mark, J: DeskMark>(
    board: &Board,
    table: &mut Table<K, M>,
    bench: &mut Bench<B>,
    callers: &mut Vec<u32>,
    seat: &mut Place,
    calls: &mut Tally<CallsOf<J>>,
    faults: &mut Tally<FaultsOf<J>>,
    number: u32,
    its: &mut Place,
    made: &mut Share<CallsOf<J>>,
    met: &mut Share<FaultsOf<J>>,
    line: u32,
    command: Command,
) -> Result<Receipt, Trouble>
    requires board { board.now.table_id ≡ J.desk.board }
    requires askable { IsAskable command }
    requires fits { IsForDesk command }
    requires bench { IsIdle B.kind_of table.old bench.old }
    requires held { HeldInvariant J.desk (told_of K.store table.old) callers.old.items seat.old calls.old.book.total faults.old.book.total }
    requires pass { PassInvariant J.desk number its.old made.old.parts made.old.amount met.old.parts }
    ensures bench { IsIdle B.kind_of table.new bench.new }
    ensures held { HeldInvariant J.desk (told_of K.store table.new) callers.new.items seat.new calls.new.book.total faults.new.book.total }
    ensures pass { PassInvariant J.desk number its.new made.new.parts made.new.amount met.new.parts }
    ensures ok { IfOk result (λ receipt. IsCalled line command receipt (pass_state number its.old met.old.amount) (pass_state number its.new met.new.amount)) }
    ensures err { IfErr result (λ trouble. IsRefused trouble (pass_state number its.old met.old.amount) (pass_state number its.new met.new.amount)) }
{
    if callers.reserve(1).is_err() {
        return Err(Trouble::Memory);
    }
    show(board, seat, its);
    let asked = Snapshot::of(&command);
    match table.command(line, command) {
        Ok(reply) => {
            retire_last(table, bench);
            let place = sign::<Brand>(board, seat, its, number, line, &asked, &reply);
            callers.push_reserved(number);
            calls.add(made);
            Ok(Receipt { place, reply })
        }
        Err(Trouble::KeeperFault) => {
            faults.add(met);
            Err(Trouble::KeeperFault)
        }
        Err(Trouble::Memory) => Err(Trouble::Memory),
    }
}
