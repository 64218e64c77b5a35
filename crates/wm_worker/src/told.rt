//! What a worker told in one turn.
ghost use Rattle.std.specs.Prelude.{◌≡◌, IfOk};

use crate::answer::Answer;
use crate::kind::Kind;
use crate::task::Task;
use std::alloc::{AllocError, Global};
use std::marker::Model;
use wm_collections::Replica;
use wm_data::Data;

/// What a worker told in one turn: its answer, and what it was asked. Its type keeps that a worker
/// of its kind may answer so. A contract sees its kind, run, attempt, input, turn and answer.
#[derive(Debug, Drop)]
pub struct Told {
    kind: Kind,
    run: u64,
    attempt: u32,
    input: Data,
    k: u32,
    answer: Answer,
}

impl Model for Told {
    ghost use Rattle.wm_worker.specs.Answers.{MayAnswer};
    ghost use Rattle.wm_worker.specs.Told.{Report};

    ghost Value = { Report };

    ghost view = { λ t. record { kind = t.kind; run = t.run; attempt = t.attempt; input = t.input; k = t.k; answer = t.answer } };

    ghost invariant = { λ t. MayAnswer t.kind (record { run = t.run; attempt = t.attempt; input = t.input }) t.k t.answer };
}

impl Told {
    ghost use Rattle.wm_worker.specs.Answers.{MayAnswer};
    ghost use Rattle.wm_worker.specs.Told.{report, IsAllowed};

    /// What a worker of this kind told in turn `k` of a task. It keeps a copy of the task's input.
    pub fn new(
        alloc: Global,
        kind: Kind,
        task: &Task,
        k: u32,
        answer: Answer,
    ) -> Result<Told, AllocError>
        requires { MayAnswer kind task.now k answer }
        ensures { IfOk result (λ told. told ≡ report kind task.entry.now k answer) }
    {
        let input = task.input.replica(alloc)?;
        Ok(Told {
            kind,
            run: task.run,
            attempt: task.attempt,
            input,
            k,
            answer,
        })
    }

    /// The kind of the worker.
    pub fn kind(&self) -> Kind
        ensures { result ≡ self.now.kind }
    {
        self.kind
    }

    /// The number of the run.
    pub fn run(&self) -> u64
        ensures { result ≡ self.now.run }
    {
        self.run
    }

    /// Which attempt of the work it was.
    pub fn attempt(&self) -> u32
        ensures { result ≡ self.now.attempt }
    {
        self.attempt
    }

    /// The input that the worker was given.
    pub fn input(&self) -> &Data
        ensures { result.now ≡ self.now.input }
    {
        &self.input
    }

    /// Which turn of the run it was, from 0.
    pub fn k(&self) -> u32
        ensures { result ≡ self.now.k }
    {
        self.k
    }

    /// The answer.
    pub fn answer(&self) -> &Answer
        ensures answer { result.now ≡ self.now.answer }
        ensures allowed { IsAllowed self.now }
    {
        &self.answer
    }

    /// The input that the worker was given, out of what was told.
    pub fn into_input(self) -> Data
        ensures { result ≡ self.input }
    {
        self.input
    }

    /// The answer, out of what was told.
    pub fn into_answer(self) -> Answer
        ensures answer { result ≡ self.answer }
        ensures allowed { IsAllowed self }
    {
        self.answer
    }
}
