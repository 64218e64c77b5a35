//! The ticket of a run that is out, and what it holds.
ghost use Rattle.std.specs.Prelude.{◌≡◌, IsSomeAnd};
ghost use Rattle.wm_machine.specs.Runs.{run_numbered};
ghost use Rattle.wm_engine.specs.Parts.{ticket_part};
ghost use Rattle.wm_engine.specs.Calls.{IsTicketIn};
ghost use Rattle.wm_engine.specs.TableState.{ticket_of};

use crate::mark::Mark;
use std::marker::{Model, PhantomData};
use wm_data::Data;
use wm_machine::Run;
use wm_roll::{Part, Token};
use wm_steps::View;
use wm_worker::{Kind, Task};

/// What a ticket holds of its run.
#[derive(Debug, Drop)]
pub struct Held {
    pub(crate) seq: u64,
    pub(crate) task: Task,
    pub(crate) kind: Kind,
    pub(crate) instance: u32,
    pub(crate) k: u32,
}

impl Held {
    /// What the ticket of a run holds, with a copy of the input that it took. It takes no memory.
    fn of_run(run: &Run, input: Data) -> Held
        requires { input ≡ run.now.input }
        ensures { result ≡ ticket_of run.entry.now }
    {
        Held {
            seq: run.seq,
            task: Task {
                run: run.run,
                attempt: run.attempt,
                input,
            },
            kind: run.kind,
            instance: run.instance,
            k: run.turn,
        }
    }

    /// The part of the run.
    pub(crate) fn part(&self) -> Part
        ensures { result ≡ ticket_part self.now }
    {
        Part {
            run: self.task.run,
            instance: self.instance,
            kind: self.kind,
        }
    }
}

/// What the ticket of the run of this number holds, which took this input. It takes no memory.
pub(crate) fn held_for(view: &View, number: u64, input: Data) -> Held
    requires { IsSomeAnd (run_numbered number view.now.runs) (λ run. input ≡ run.input) }
    ensures run { result.task.run ≡ number }
    ensures input { result.task.input ≡ input }
    ensures ticket { IsTicketIn view.entry.now result }
{
    match view.run(number) {
        Some(run) => Held::of_run(run, input),
        None => unreachable!(),
    }
}

/// The right to report on one run of a work: it names the work, and holds what the run took, which
/// turn it is at, and the token of the run, whose part stands on the roll of the table. It must be
/// spent: [`Engine::turn`](crate::Engine::turn) or [`Engine::take_back`](crate::Engine::take_back)
/// takes it, or the table's calls of these names. A contract sees all that it holds but the token. Its type keeps that the token is of the roll
/// of its run, and for this run on this instance. Its parameter is the [`Mark`] of its run.
pub struct Ticket<M: Mark> {
    pub(crate) held: Held,
    pub(crate) token: Token,
    pub(crate) of: PhantomData<M>,
}

impl<M: Mark> Model for Ticket<M> {
    ghost use Rattle.std.specs.Prelude.{◌≡◌};
    ghost use Rattle.wm_engine.specs.Parts.{ticket_part};
    ghost use Rattle.wm_engine.specs.TableState.{TicketState};

    ghost Value = { TicketState };

    ghost view = { λ t. t.held };

    ghost invariant = { λ t. (t.token.table_id ≡ M.inputs.roll) × (t.token.part ≡ ticket_part t.held) };
}

impl<M: Mark> Ticket<M> {
    /// What the worker is asked: the number of the run, the attempt and the input that it took.
    pub fn task(&self) -> &Task
        ensures { result.now ≡ self.now.task }
    {
        &self.held.task
    }

    /// The number of the work.
    pub fn seq(&self) -> u64
        ensures { result ≡ self.now.seq }
    {
        self.held.seq
    }

    /// The kind of the instance that the run is on.
    pub fn kind(&self) -> Kind
        ensures { result ≡ self.now.kind }
    {
        self.held.kind
    }

    /// The number of that instance.
    pub fn instance(&self) -> u32
        ensures { result ≡ self.now.instance }
    {
        self.held.instance
    }

    /// Which turn of the run it is at, from 0.
    pub fn k(&self) -> u32
        ensures { result ≡ self.now.k }
    {
        self.held.k
    }
}
