//! The stock worker that always wants another turn.
use crate::stock::{Answering, Stock};
use std::alloc::{AllocError, Global};
use wm_worker::{Answer, Kind, Task};

/// Always wants another turn, without progress. It looks at the signal up to 10,000 times in each
/// turn, and answers Cut as soon as it is raised.
pub type Wait = Stock<Waiting>;

/// What [`Wait`] answers.
#[derive(Debug, Drop)]
pub struct Waiting;

impl Answering for Waiting {
    ghost use Rattle.wm_worker.specs.declared.kind.Kind.TheVariants as kind;

    ghost KIND = { kind.Wait };

    ghost POLLS = { 10000 };

    const KIND: Kind = Kind::Wait;

    const POLLS: u32 = 10_000;

    fn answer(_alloc: Global, _task: &Task, _k: u32) -> Result<Answer, AllocError> {
        Ok(Answer::More(None))
    }
}
