//! The stock worker that counts turns.
use crate::input::{entry_alone, turns_of};
use crate::stock::{Answering, Stock};
use std::alloc::{AllocError, Global};
use wm_data::Value;
use wm_worker::{Answer, Kind, Task};

/// Takes as many turns as an Int in its input says under `turns`, or one where none of 1 or more is
/// there. Each but the last tells as its progress how many were taken, as `turn`, an Int. The last
/// succeeds with their number as `turns`, an Int. It looks at the signal once in each turn, and
/// answers Cut where it is raised.
pub type Count = Stock<Counting>;

/// What [`Count`] answers.
#[derive(Debug, Drop)]
pub struct Counting;

impl Answering for Counting {
    ghost use Rattle.wm_worker.specs.declared.kind.Kind.TheVariants as kind;

    ghost KIND = { kind.Count };

    ghost POLLS = { 1 };

    const KIND: Kind = Kind::Count;

    const POLLS: u32 = 1;

    fn answer(alloc: Global, task: &Task, k: u32) -> Result<Answer, AllocError> {
        let turns = turns_of(&task.input);
        let taken = i64::from(k) + 1;
        if taken < i64::from(turns) {
            let progress = entry_alone(alloc, "turn", Value::Int(taken as i32))?;
            return Ok(Answer::More(Some(progress)));
        }
        let output = entry_alone(alloc, "turns", Value::Int(turns))?;
        Ok(Answer::Success(output))
    }
}
