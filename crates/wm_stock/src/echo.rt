//! The stock worker that gives back its input.
use crate::stock::{Answering, Stock};
use std::alloc::{AllocError, Global};
use wm_collections::Replica;
use wm_worker::{Answer, Kind, Task};

/// Succeeds in its first turn, with its input as its output. It doesn't look at the signal.
pub type Echo = Stock<Echoing>;

/// What [`Echo`] answers.
#[derive(Debug, Drop)]
pub struct Echoing;

impl Answering for Echoing {
    ghost use Rattle.wm_worker.specs.declared.kind.Kind.TheVariants as kind;

    ghost KIND = { kind.Echo };

    ghost POLLS = { 0 };

    const KIND: Kind = Kind::Echo;

    const POLLS: u32 = 0;

    fn answer(alloc: Global, task: &Task, _k: u32) -> Result<Answer, AllocError> {
        Ok(Answer::Success(task.input.replica(alloc)?))
    }
}
