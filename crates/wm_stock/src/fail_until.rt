//! The stock worker that fails before an attempt.
use crate::input::has_reached;
use crate::stock::{Answering, Stock};
use std::alloc::{AllocError, Global};
use wm_collections::Replica;
use wm_data::Data;
use wm_worker::{Answer, Kind, Task};

/// Fails, without output, before the attempt that an Int in its input names under `until`, or before
/// the second where none does. From that attempt on it succeeds with its input as its output. It
/// doesn't look at the signal.
pub type FailUntil = Stock<FailingUntil>;

/// What [`FailUntil`] answers.
#[derive(Debug, Drop)]
pub struct FailingUntil;

impl Answering for FailingUntil {
    ghost use Rattle.wm_worker.specs.declared.kind.Kind.TheVariants as kind;

    ghost KIND = { kind.FailUntil };

    ghost POLLS = { 0 };

    const KIND: Kind = Kind::FailUntil;

    const POLLS: u32 = 0;

    fn answer(alloc: Global, task: &Task, _k: u32) -> Result<Answer, AllocError> {
        if has_reached(&task.input, task.attempt) {
            Ok(Answer::Success(task.input.replica(alloc)?))
        } else {
            Ok(Answer::Failure(Data::empty()))
        }
    }
}
