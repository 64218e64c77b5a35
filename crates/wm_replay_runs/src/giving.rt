//! What the worker of a run may give: a stock worker its one answer, and any other whatever is Data.
ghost use Rattle.std.specs.Prelude.{◌≡◌, ◌↔◌, true, Some, Decides, IfOk, IfSome, IsSome, IsTrue};
ghost use Rattle.wm_replay_runs.specs.Giving.{IsMore, IsStockAnswer, MayWantMore};
ghost use Rattle.wm_data.specs.Size.{IsData};
ghost use Rattle.wm_machine.specs.Ends.{given_by};
ghost use Rattle.wm_worker.specs.Answers.{given_of, stock_answer, GivesData, MayGive};
ghost use Rattle.wm_worker.specs.declared.answer.Given.TheVariants as given;

use std::alloc::{AllocError, Global};
use wm_collections::Replica;
use wm_data::Data;
use wm_machine::{End, Kind, Run};
use wm_stock::Answering;
use wm_stock::count::Counting;
use wm_stock::echo::Echoing;
use wm_stock::fail_until::FailingUntil;
use wm_stock::retry_until::RetryingUntil;
use wm_stock::sum::Summing;
use wm_stock::wait::Waiting;
use wm_worker::{Answer, Task};

/// Whether the worker of a run may want one more turn and tell this.
pub fn may_turn(alloc: Global, run: &Run, progress: &Option<Data>) -> Result<bool, AllocError>
    ensures { IfOk result (λ may. IsTrue may
        ↔ MayGive run.entry.now.kind run.entry.now.input run.entry.now.attempt run.entry.now.turn (given.More progress.entry.now)) }
{
    match stock_given(alloc, run)? {
        Some(answer) => Ok(is_more(&answer, progress)),
        None => Ok(is_progress(progress)),
    }
}

/// Whether the worker of a run may want one more turn, whatever it tells.
pub fn may_want_more(alloc: Global, run: &Run) -> Result<bool, AllocError>
    ensures { IfOk result (λ may. IsTrue may ↔ MayWantMore run.entry.now) }
{
    match stock_given(alloc, run)? {
        Some(answer) => Ok(wants_more(&answer)),
        None => Ok(true),
    }
}

/// Whether the worker of a run may end it so.
pub fn may_end(alloc: Global, run: &Run, end: &End) -> Result<bool, AllocError>
    ensures { IfOk result (λ may. IsTrue may
        ↔ MayGive run.entry.now.kind run.entry.now.input run.entry.now.attempt run.entry.now.turn (given_by end.entry.now)) }
{
    match stock_given(alloc, run)? {
        Some(answer) => Ok(is_end(&answer, end)),
        None => Ok(is_output(end)),
    }
}

/// The answer of the worker of a run, where its kind is a stock one.
fn stock_given(alloc: Global, run: &Run) -> Result<Option<Answer>, AllocError>
    ensures { IfOk result (IsStockAnswer
        (stock_answer run.entry.now.kind run.entry.now.input run.entry.now.attempt run.entry.now.turn)) }
{
    let task = Task {
        run: run.run,
        attempt: run.attempt,
        input: run.input.replica(alloc)?,
    };
    answer_of_kind(alloc, run.kind, &task, run.turn)
}

/// The answer of a worker of a kind to turn `k` of a task, where the kind is a stock one.
fn answer_of_kind(
    alloc: Global,
    kind: Kind,
    task: &Task,
    k: u32,
) -> Result<Option<Answer>, AllocError>
    ensures { IfOk result (IsStockAnswer (stock_answer kind task.entry.now.input task.entry.now.attempt k)) }
{
    match kind {
        Kind::Echo => answer_by::<Echoing>(alloc, task, k),
        Kind::Sum => answer_by::<Summing>(alloc, task, k),
        Kind::FailUntil => answer_by::<FailingUntil>(alloc, task, k),
        Kind::RetryUntil => answer_by::<RetryingUntil>(alloc, task, k),
        Kind::Count => answer_by::<Counting>(alloc, task, k),
        Kind::Wait => answer_by::<Waiting>(alloc, task, k),
        Kind::Custom => Ok(None),
    }
}

/// The answer of a stock worker to turn `k` of a task.
fn answer_by<A: Answering>(alloc: Global, task: &Task, k: u32) -> Result<Option<Answer>, AllocError>
    ensures { IfOk result (λ found. IsSome (stock_answer A.KIND task.entry.now.input task.entry.now.attempt k)
        → IsStockAnswer (stock_answer A.KIND task.entry.now.input task.entry.now.attempt k) found) }
{
    Ok(Some(A::answer(alloc, task, k)?))
}

/// Whether an answer is the wish for one more turn that tells this.
fn is_more(answer: &Answer, progress: &Option<Data>) -> bool
    ensures { IsTrue result ↔ (given_of answer.entry.now ≡ Some (given.More progress.entry.now)) }
{
    match answer {
        Answer::More(told) => is_same(told, progress),
        _ => false,
    }
}

/// Whether two tell the same.
fn is_same(one: &Option<Data>, other: &Option<Data>) -> bool
    ensures { Decides result (one.entry.now ≡ other.entry.now) }
{
    match (one, other) {
        (Some(one), Some(other)) => *one == *other,
        (None, None) => true,
        _ => false,
    }
}

/// Whether an answer is the wish for one more turn.
fn wants_more(answer: &Answer) -> bool
    ensures { IsTrue result ↔ IsMore (given_of answer.entry.now) }
{
    matches!(answer, Answer::More(_))
}

/// Whether an answer ends a run so.
fn is_end(answer: &Answer, end: &End) -> bool
    ensures { IsTrue result ↔ (given_of answer.entry.now ≡ Some (given_by end.entry.now)) }
{
    match (answer, end) {
        (Answer::Success(one), End::Success(other)) => *one == *other,
        (Answer::Failure(one), End::Failure(other)) => *one == *other,
        (Answer::Retry, End::Retry) => true,
        _ => false,
    }
}

/// What is told is Data.
fn is_progress(progress: &Option<Data>) -> bool
    ensures yes { result ≡ true }
    ensures data { IfSome progress.entry.now IsData }
{
    match progress {
        Some(progress) => is_data(progress),
        None => true,
    }
}

/// What an end gives is Data.
fn is_output(end: &End) -> bool
    ensures yes { result ≡ true }
    ensures data { GivesData (given_by end.entry.now) }
{
    match end {
        End::Success(output) => is_data(output),
        End::Failure(output) => is_data(output),
        End::Retry => true,
    }
}

/// Data is Data, by its type.
fn is_data(given: &Data) -> bool
    ensures yes { result ≡ true }
    ensures data { IsData given.entry.now }
{
    let _size = given.size();
    true
}
