//! A worker that is one function.
use crate::answer::{Answer, Entry};
use crate::kind::Kind;
use crate::signal::Signal;
use crate::task::Task;
use crate::told::Told;
use crate::worker::Worker;
use std::alloc::{AllocError, Global};

/// All that a worker of a user's own has to do: it answers a turn, as `doWork` does of
/// `androidx.work.Worker`. [`Simple`] makes a worker of it.
pub trait DoWork: Drop {
    ghost use Rattle.std.specs.Prelude.{◌≡◌, IfOk, IsSome, IsTrue};
    ghost use Rattle.wm_worker.specs.Answers.{given_of, MayAnswer};
    ghost use Rattle.wm_worker.specs.declared.kind.Kind.TheVariants.{Custom};

    /// Answers turn `k` of a task, whose signal it may look at. Memory that is refused is the only
    /// error.
    fn do_work(
        &mut self,
        alloc: Global,
        task: &Task,
        k: u32,
        signal: &Signal,
    ) -> Result<Answer, AllocError>
        requires { signal.now.run ≡ task.now.run }
        ensures answer { IfOk result (MayAnswer Custom task.now k) }
        ensures never { IsTrue signal.now.never → IfOk result (λ answer. IsSome (given_of answer)) };
}

/// The worker of kind Custom that answers as its work does. It tells no diary, and has nothing to make
/// ready.
#[derive(Debug, Drop)]
pub struct Simple<W> {
    work: W,
}

impl<W: DoWork> Simple<W> {
    /// The worker that does this work.
    pub fn new(work: W) -> Simple<W> {
        Simple { work }
    }
}

impl<W: DoWork> Worker for Simple<W> {
    ghost use Rattle.std.specs.Prelude.{None};
    ghost use Rattle.wm_worker.specs.declared.kind.Kind.TheVariants.{Custom};

    ghost kind_of = { λ _. Custom };

    ghost diary_of = { λ _. None };

    fn kind(&self) -> Kind {
        Kind::Custom
    }

    fn diary(&self) -> Option<&[Entry]> {
        None
    }

    fn begin(&mut self, _alloc: Global, _task: &Task) -> Result<(), AllocError> {
        Ok(())
    }

    fn turn(
        &mut self,
        alloc: Global,
        task: &Task,
        k: u32,
        signal: &Signal,
    ) -> Result<Told, AllocError> {
        let answer = self.work.do_work(alloc, task, k, signal)?;
        Told::new(alloc, Kind::Custom, task, k, answer)
    }
}
