//! The stock worker that wants to be retried before an attempt.
use crate::input::has_reached;
use crate::stock::{Answering, Stock};
use std::alloc::{AllocError, Global};
use wm_collections::Replica;
use wm_worker::{Answer, Kind, Task};

/// Wants to be tried again before the attempt that an Int in its input names under `until`, or
/// before the second where none does. From that attempt on it succeeds with its input as its output.
/// It doesn't look at the signal.
pub type RetryUntil = Stock<RetryingUntil>;

/// What [`RetryUntil`] answers.
#[derive(Debug, Drop)]
pub struct RetryingUntil;

impl Answering for RetryingUntil {
    ghost use Rattle.wm_worker.specs.declared.kind.Kind.TheVariants as kind;

    ghost KIND = { kind.RetryUntil };

    ghost POLLS = { 0 };

    const KIND: Kind = Kind::RetryUntil;

    const POLLS: u32 = 0;

    fn answer(alloc: Global, task: &Task, _k: u32) -> Result<Answer, AllocError> {
        if has_reached(&task.input, task.attempt) {
            Ok(Answer::Success(task.input.replica(alloc)?))
        } else {
            Ok(Answer::Retry)
        }
    }
}
