//! What the stock workers have in common.
ghost use Rattle.std.specs.Prelude.{◌≡◌, ◌≤◌, IfOk, IfSome, IsNone, IsOk, IsTrue};

use std::alloc::{AllocError, Global};
use std::marker::PhantomData;
use wm_worker::{Answer, Entry, Kind, Raised, Signal, Task, Told, Worker};

/// A stock worker: it needs nothing but its input, and tells no diary.
#[derive(Debug, Drop)]
pub struct Stock<A> {
    answering: PhantomData<A>,
}

/// What a stock worker is: its kind, how often it looks at the signal, and what it answers.
pub trait Answering: Drop {
    ghost use Rattle.std.specs.Prelude.{ℕ, IsSome};
    ghost use Rattle.wm_worker.specs.Answers.{given_of, MayAnswer};
    ghost use Rattle.wm_worker.specs.declared.kind.Kind.{Kind};

    ghost KIND: { Kind };

    ghost POLLS: { ℕ };

    /// Its kind.
    const KIND: Kind;

    /// How often it looks at the signal in one turn, at most.
    const POLLS: u32;

    /// Its answer to turn `k` of a task, where it hasn't seen the signal raised.
    fn answer(alloc: Global, task: &Task, k: u32) -> Result<Answer, AllocError>
        ensures answer { IfOk result (MayAnswer KIND task.now k) }
        ensures given { IfOk result (λ answer. IsSome (given_of answer)) };
}

impl<A: Answering> Stock<A> {
    /// A worker of kind `A::KIND`.
    pub fn new() -> Stock<A> {
        Stock {
            answering: PhantomData,
        }
    }
}

impl<A: Answering> Worker for Stock<A> {
    ghost use Rattle.std.specs.Prelude.{None, IsSome};
    ghost use Rattle.wm_worker.specs.Answers.{given_of, MayAnswer};
    ghost use Rattle.wm_worker.specs.Told.{IsReportOf};

    ghost kind_of = { λ _. A.KIND };

    ghost diary_of = { λ _. None };

    fn kind(&self) -> Kind {
        A::KIND
    }

    fn diary(&self) -> Option<&[Entry]> {
        None
    }

    /// There is nothing to make ready.
    fn begin(&mut self, _alloc: Global, _task: &Task) -> Result<(), AllocError>
        ensures { IsOk result }
    {
        Ok(())
    }

    /// Answers Cut where it sees the signal raised, and else as its kind does.
    fn turn(
        &mut self,
        alloc: Global,
        task: &Task,
        k: u32,
        signal: &Signal,
    ) -> Result<Told, AllocError>
        requires { 1 ≤ A.POLLS → signal.now.run ≡ task.now.run }
        ensures told { IfOk result (IsReportOf A.KIND task.now k) }
        ensures answer { IfOk result (λ told. MayAnswer A.KIND task.now k told.answer) }
        ensures never { IsTrue signal.now.never → IfOk result (λ told. IsSome (given_of told.answer)) }
        ensures unpolled { A.POLLS ≡ 0 → IfOk result (λ told. IsSome (given_of told.answer)) }
    {
        let answer = match first_raised(signal, A::POLLS) {
            Some(raised) => Answer::Cut(raised),
            None => A::answer(alloc, task, k)?,
        };
        Told::new(alloc, A::KIND, task, k, answer)
    }
}

/// That the signal was raised, at the first poll that finds it so.
fn first_raised(signal: &Signal, polls: u32) -> Option<Raised>
    ensures run { IfSome result (λ raised. raised ≡ signal.now.run) }
    ensures polled { IfSome result (λ _. 1 ≤ polls) }
    ensures never { IsTrue signal.now.never → IsNone result }
{
    for _ in 0..polls {
        if let Some(raised) = signal.poll() {
            return Some(raised);
        }
    }
    None
}
