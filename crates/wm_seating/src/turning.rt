//! One turn of a run whose session drives one run at a time.
ghost use Rattle.std.specs.Prelude.{◌≡◌, true, IfOk, IsSome};
ghost use Rattle.wm_seating.specs.Turning.{HasWritten};
ghost use Rattle.wm_worker.specs.Answers.{given_of};
ghost use Rattle.wm_worker.specs.Told.{IsReportOf};

use std::alloc::{AllocError, Global};
use wm_bench::Seated;
use wm_pool::{Gate, Point};
use wm_table::{Mark, Ticket};
use wm_worker::{Signal, Told, Worker};

/// Passes the gate before the turn of a run that its ticket is for.
pub fn pass_turn<M: Mark, G: Gate>(ticket: &Ticket<M>, gate: &G) {
    gate.at(Point::Turn {
        run: ticket.task().run,
        seq: ticket.seq(),
        k: ticket.k(),
    });
}

/// Has the worker of a run take the turn that its ticket is for, with a signal of the run that is
/// never raised. What it tells is an answer, and a report of its kind. A worker that tells a diary has
/// written down just that.
///
/// An error comes where memory was refused to the worker. Then its diary is as it was.
pub fn turn<B: Worker, M: Mark>(
    alloc: Global,
    seat: &mut Seated<B>,
    ticket: &Ticket<M>,
    signal: &Signal,
) -> Result<Told, AllocError>
    requires { signal.now ≡ record { run = ticket.now.task.run; never = true } }
    ensures number { seat.new.number ≡ seat.old.number }
    ensures kind { B.kind_of seat.new.worker ≡ B.kind_of seat.old.worker }
    ensures told { IfOk result (IsReportOf (B.kind_of seat.old.worker) ticket.now.task ticket.now.k) }
    ensures given { IfOk result (λ told. IsSome (given_of told.answer)) }
    ensures written { HasWritten B.diary_of ticket.now seat.old.worker seat.new.worker result }
{
    seat.turn(alloc, ticket.task(), ticket.k(), signal)
}
