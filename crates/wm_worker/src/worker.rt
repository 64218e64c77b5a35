//! The trait of a worker.
ghost use Rattle.std.specs.Prelude.{◌≡◌, [], ◌∷◌, List, Option, option_copied, IfOk, OnOk, OnErr, IsTrue, IsSome};

use crate::answer::Entry;
use crate::kind::Kind;
use crate::signal::Signal;
use crate::task::Task;
use crate::told::Told;
use std::alloc::{AllocError, Global};

/// What runs works of one kind, after `androidx.work.ListenableWorker`, but in turns.
///
/// Whoever drives a run calls `begin` once before its turn 0, and then `turn` with 0, 1 and so on
/// for as long as the answer is More.
pub trait Worker: Drop {
    ghost use Rattle.wm_worker.specs.Answers.{given_of};
    ghost use Rattle.wm_worker.specs.Diary.{diary_with, turn_entries};
    ghost use Rattle.wm_worker.specs.Told.{IsReportOf};
    ghost use Rattle.wm_worker.specs.declared.answer.Entry.{Entry};
    ghost use Rattle.wm_worker.specs.declared.answer.Entry.TheVariants.{Begun};
    ghost use Rattle.wm_worker.specs.declared.kind.Kind.{Kind};

    /// Its kind.
    ghost kind_of: { Self → Kind };

    /// The entries of its diary, where it tells one.
    ghost diary_of: { Self → Option (List Entry) };

    /// Its kind, which never changes.
    fn kind(&self) -> Kind
        ensures { result ≡ kind_of self.now };

    /// Its diary, where it tells one. Whether it does never changes.
    fn diary(&self) -> Option<&[Entry]>
        ensures { option_copied result ≡ diary_of self.now };

    /// Makes ready for a run. Where memory is refused nothing is written down.
    fn begin(&mut self, alloc: Global, task: &Task) -> Result<(), AllocError>
        ensures kind { kind_of self.new ≡ kind_of self.old }
        ensures diary { OnOk result (diary_of self.new ≡ diary_with (Begun task.now.run ∷ []) (diary_of self.old)) }
        ensures diary_err { OnErr result (diary_of self.new ≡ diary_of self.old) };

    /// Takes turn `k` of a run, whose signal it may look at. Where memory is refused nothing is
    /// written down.
    fn turn(
        &mut self,
        alloc: Global,
        task: &Task,
        k: u32,
        signal: &Signal,
    ) -> Result<Told, AllocError>
        requires { signal.now.run ≡ task.now.run }
        ensures kind { kind_of self.new ≡ kind_of self.old }
        ensures told { IfOk result (IsReportOf (kind_of self.old) task.now k) }
        ensures never { IsTrue signal.now.never → IfOk result (λ told. IsSome (given_of told.answer)) }
        ensures diary { IfOk result (λ told. diary_of self.new ≡ diary_with (turn_entries task.now.run k told.answer) (diary_of self.old)) }
        ensures diary_err { OnErr result (diary_of self.new ≡ diary_of self.old) };
}

impl Worker for Box<dyn Worker + Send> {
    ghost kind_of = { λ b. (Worker-box b).kind_of b.value };

    ghost diary_of = { λ b. (Worker-box b).diary_of b.value };

    fn kind(&self) -> Kind {
        (**self).kind()
    }

    fn diary(&self) -> Option<&[Entry]> {
        (**self).diary()
    }

    fn begin(&mut self, alloc: Global, task: &Task) -> Result<(), AllocError> {
        (**self).begin(alloc, task)
    }

    fn turn(
        &mut self,
        alloc: Global,
        task: &Task,
        k: u32,
        signal: &Signal,
    ) -> Result<Told, AllocError> {
        (**self).turn(alloc, task, k, signal)
    }
}
