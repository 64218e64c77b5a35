//! A worker that is out for a run, with the number of its place.
ghost use Rattle.std.specs.Prelude.{◌≡◌, [], ◌∷◌, IfOk, OnOk, OnErr, IsTrue, IsSome};
ghost use Rattle.wm_worker.specs.Answers.{given_of};
ghost use Rattle.wm_worker.specs.Diary.{diary_with, turn_entries};
ghost use Rattle.wm_worker.specs.Told.{IsReportOf};
ghost use Rattle.wm_worker.specs.declared.answer.Entry.TheVariants.{Begun};

use std::alloc::{AllocError, Global};
use std::marker::Model;
use wm_worker::{Kind, Signal, Task, Told, Worker};

/// A worker that was taken from its place on a bench, with the number of that place. A contract
/// sees both.
#[derive(Drop)]
pub struct Seated<B = Box<dyn Worker + Send>> {
    pub(crate) number: u32,
    pub(crate) worker: B,
}

impl<B> Model for Seated<B> {
    ghost use Rattle.wm_bench.specs.Seat.{Seat};

    ghost Value = { Seat B };

    ghost view = { λ s. record { number = s.number; worker = s.worker } };
}

impl<B> Seated<B> {
    /// The number of its place.
    pub fn number(&self) -> u32
        ensures { result ≡ self.now.number }
    {
        self.number
    }
}

impl<B: Worker> Seated<B> {
    /// The kind of the worker.
    pub fn kind(&self) -> Kind
        ensures { result ≡ B.kind_of self.now.worker }
    {
        self.worker.kind()
    }

    /// Has the worker make ready for a run.
    pub fn begin(&mut self, alloc: Global, task: &Task) -> Result<(), AllocError>
        ensures number { self.new.number ≡ self.old.number }
        ensures kind { B.kind_of self.new.worker ≡ B.kind_of self.old.worker }
        ensures diary { OnOk result (B.diary_of self.new.worker ≡ diary_with (Begun task.now.run ∷ []) (B.diary_of self.old.worker)) }
        ensures diary_err { OnErr result (B.diary_of self.new.worker ≡ B.diary_of self.old.worker) }
    {
        self.worker.begin(alloc, task)
    }

    /// Has the worker take turn `k` of a run.
    pub fn turn(
        &mut self,
        alloc: Global,
        task: &Task,
        k: u32,
        signal: &Signal,
    ) -> Result<Told, AllocError>
        requires { signal.now.run ≡ task.now.run }
        ensures number { self.new.number ≡ self.old.number }
        ensures kind { B.kind_of self.new.worker ≡ B.kind_of self.old.worker }
        ensures told { IfOk result (IsReportOf (B.kind_of self.old.worker) task.now k) }
        ensures never { IsTrue signal.now.never → IfOk result (λ told. IsSome (given_of told.answer)) }
        ensures diary { IfOk result (λ told. B.diary_of self.new.worker ≡ diary_with (turn_entries task.now.run k told.answer) (B.diary_of self.old.worker)) }
        ensures diary_err { OnErr result (B.diary_of self.new.worker ≡ B.diary_of self.old.worker) }
    {
        self.worker.turn(alloc, task, k, signal)
    }
}
