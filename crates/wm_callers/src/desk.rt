//! The desk, where several threads give commands to one table.
ghost use Rattle.std.specs.Prelude.{◌≡◌, [], length, IfOk, IfErr};
ghost use Rattle.wm_callers.specs.Calls.{IsCalled, IsLooked, IsMet, IsRefused};
ghost use Rattle.wm_callers.specs.Closing.{fresh_passes, IsBefore, IsClosed};
ghost use Rattle.wm_callers.specs.ForDesk.{IsForDesk};
ghost use Rattle.wm_seating.specs.Idle.{IsIdle};
ghost use Rattle.wm_callers.specs.Openings.{inputs_of};
ghost use Rattle.wm_callers.specs.Told.{told_of};
ghost use Rattle.wm_collections.specs.Lists.{AllLater};
ghost use Rattle.wm_machine.specs.Outcome.{IsAskable};

use crate::held::Held;
use crate::mark::{CallsOf, DeskMark, FaultsOf};
use crate::opening::Opening;
use crate::pass::{Pass, Receipt, deal, gather};
use crate::steps::learn;
use crate::tally::Tally;
use crate::view::DeskTable;
use std::alloc::Global;
use std::marker::Model;
use std::sync::{Mutex, Wait};
use wm_bench::Bench;
use wm_keeper::Keeper;
use wm_machine::Command;
use wm_table::{Mark, Table, Trouble};
use wm_worker::Worker;

/// A table that several threads give commands to, each with a [`Pass`], and the bench beside it. The
/// marks say which table and which desk it is.
pub struct Desk<K: Keeper, B: Worker, M: Mark, J: DeskMark> {
    board: DeskTable,
    held: Mutex<Held<K, B, M, J>>,
}

impl<K: Keeper, B: Worker, M: Mark, J: DeskMark> Model for Desk<K, B, M, J> {
    ghost use Rattle.std.specs.Prelude.{◌≡◌};
    ghost use Rattle.atomic_table.specs.Seated.{TableId};

    ghost Value = { TableId };

    ghost view = { λ d. d.board.shared.table_id };

    ghost invariant = { λ d. (d.board.shared.table_id ≡ J.desk.board) × (d.board.shared.table_id.words ≡ 1) };
}

/// What a desk hands back: table and bench, and the number of the caller of each command of the log,
/// in order.
pub struct DeskEnd<K: Keeper, B: Worker, M: Mark> {
    pub table: Table<K, M>,
    pub bench: Bench<B>,
    pub callers: Vec<u32>,
}

impl<K: Keeper, B: Worker, M: Mark, J: DeskMark> Desk<K, B, M, J> {
    /// A desk over a table without events and without runs, and the bench that agrees with it, with a
    /// pass for each caller, which has seen and made nothing. The numbers of the callers are those from 0
    /// on. Table and bench come back where memory is refused.
    pub fn new(
        alloc: Global,
        opening: Opening,
        table: Table<K, M>,
        bench: Bench<B>,
    ) -> Result<(Desk<K, B, M, J>, Vec<Pass<J>>), (Table<K, M>, Bench<B>)>
        requires inputs { J.desk ≡ inputs_of opening (K.store table.keeper).faults }
        requires empty { table.log ≡ [] }
        requires bench { IsIdle B.kind_of table bench }
        ensures ok { IfOk result (λ made. made.1.items ≡ fresh_passes opening.callers) }
        ensures err { IfErr result (λ back. (back.0 ≡ table) × (back.1 ≡ bench)) }
    {
        let Opening {
            table: seats,
            mut seat,
            calls,
            faults,
            callers,
        } = opening;
        let Ok(room) = Vec::with_capacity(alloc, callers as usize) else {
            return Err((table, bench));
        };
        let (calls, mut made) = calls.open::<CallsOf<J>>();
        let (faults, mut met) = faults.open::<FaultsOf<J>>();
        let board = &seats.shared;
        let passes = deal(board, &mut seat, &mut made, &mut met, room, callers);
        let held = Held {
            table,
            bench,
            callers: Vec::new(alloc),
            seat,
            calls: Tally::new(calls, made),
            faults: Tally::new(faults, met),
        };
        let desk = Desk {
            board: seats,
            held: Mutex::new(held),
        };
        Ok((desk, passes))
    }

    /// Executes the command of a line for the caller of a pass, in one event of the table, and gives a
    /// receipt. Then the pass has seen all calls up to this one, which is its own. The command neither
    /// settles nor observes, since no run begins while the desk is open.
    ///
    /// An error changes nothing but that the pass has one fault more where it is `KeeperFault`: the keeper
    /// failed. `Memory` comes where memory was refused, before the commit.
    pub fn call<R: Wait>(
        &self,
        rt: &R,
        pass: &mut Pass<J>,
        line: u32,
        command: Command,
    ) -> Result<Receipt, Trouble>
        requires askable { IsAskable command }
        requires fits { IsForDesk command }
        ensures ok { IfOk result (λ receipt. IsCalled line command receipt pass.old pass.new) }
        ensures err { IfErr result (λ trouble. IsRefused trouble pass.old pass.new) }
    {
        let table = &self.board;
        self.held.lock(rt).call(&table.shared, pass, line, command)
    }

    /// Shows the caller of a pass all calls so far, and answers how many they are. It takes no memory.
    pub fn look<R: Wait>(&self, rt: &R, pass: &mut Pass<J>) -> u64
        ensures { IsLooked result pass.old pass.new }
    {
        let table = &self.board;
        self.held.lock(rt).look(&table.shared, pass)
    }

    /// Shows the caller of the second pass what that of the first has seen. It takes no lock and no
    /// memory.
    pub fn meet(&self, from: &mut Pass<J>, into: &mut Pass<J>)
        ensures same { from.new ≡ from.old }
        ensures met { IsMet from.old into.old into.new }
    {
        let table = &self.board;
        let Pass {
            number: _,
            seat: its,
            made: _,
            met: _,
        } = from;
        let Pass {
            number: _,
            seat,
            made: _,
            met: _,
        } = into;
        learn(&table.shared, its, seat);
    }

    /// Ends a desk whose passes have all come back, in ascending order of their numbers. It takes no
    /// memory.
    pub fn close(self, passes: Vec<Pass<J>>) -> DeskEnd<K, B, M>
        requires all { length passes.items ≡ J.desk.callers }
        requires ascending { AllLater IsBefore passes.items }
        ensures closed { IsClosed J.desk passes.items result.callers.items (told_of K.store result.table) }
        ensures bench { IsIdle B.kind_of result.table result.bench }
    {
        let Desk { board: seats, held } = self;
        let Held {
            table,
            bench,
            callers,
            mut seat,
            calls,
            faults,
        } = held.into_inner();
        let (mut calls, mut made) = calls.into_parts();
        let (mut faults, mut met) = faults.into_parts();
        gather(&seats.shared, &mut seat, &mut made, &mut met, passes);
        calls.audit(&mut made);
        faults.audit(&mut met);
        DeskEnd {
            table,
            bench,
            callers,
        }
    }
}
