//! Which run the report of a worker is about, and whether it counts.
ghost use Rattle.std.specs.Prelude.{◌≡◌, ◌↔◌, false, true, IsSome, IsTrue};
ghost use Rattle.wm_runs.specs.Reports.{goes_on, wants_more, Counts, CountsIn, IsFoundRun, IsOut};
ghost use Rattle.wm_worker.specs.Answers.{given_of};

use wm_machine::{Record, Run};
use wm_steps::View;
use wm_worker::{Answer, Told};

/// The last turn of a run, which has 1,000 of them.
const LAST_TURN: u32 = 999;

/// A run, with the record of its work and the index at which that stands.
#[derive(Clone, Copy)]
pub struct FoundRun<'v> {
    pub run: &'v Run,
    pub index: usize,
    pub work: &'v Record,
}

/// The run of this number, which is out and current, with its work.
pub fn found_run(view: &View, number: u64) -> FoundRun<'_>
    requires { IsOut view.now number true }
    ensures { IsFoundRun view.entry.now number result.index result.run.now result.work.now }
{
    // what the type of a view keeps is known where a field of it is read
    let _reached = &view.state;
    let Some(run) = view.run(number) else {
        unreachable!();
    };
    let Some(index) = view.place_of(run.seq) else {
        unreachable!();
    };
    FoundRun {
        run,
        index,
        work: view.work_at(index),
    }
}

/// Whether a worker came to an answer by itself.
fn is_given(answer: &Answer) -> bool
    ensures { IsTrue result ↔ IsSome (given_of answer.now) }
{
    !matches!(answer, Answer::Cut(_))
}

/// Whether a report counts for a run.
fn counts(run: &Run, told: &Told) -> bool
    ensures { IsTrue result ↔ Counts run.entry.now told.now }
{
    run.current
        && told.kind() == run.kind
        && told.run() == run.run
        && told.attempt() == run.attempt
        && *told.input() == run.input
        && told.k() == run.turn
        && is_given(told.answer())
}

/// Whether a report counts for the run of this number.
pub fn counts_in(view: &View, number: u64, told: &Told) -> bool
    ensures { IsTrue result ↔ CountsIn view.entry.now number told.now }
{
    match view.run(number) {
        Some(run) => counts(run, told),
        None => false,
    }
}

/// Whether the run of this number is out, and was stopped.
pub fn is_stopped(view: &View, number: u64) -> bool
    ensures { IsTrue result ↔ IsOut view.entry.now number false }
{
    match view.run(number) {
        Some(run) => !run.current,
        None => false,
    }
}

/// Whether a worker wants one more turn.
pub fn wants_more(told: &Told) -> bool
    ensures { result ≡ wants_more (given_of told.now.answer) }
{
    matches!(told.answer(), Answer::More(_))
}

/// Whether a worker wants one more turn, and its run has one.
pub fn goes_on(told: &Told) -> bool
    ensures { result ≡ goes_on told.now }
{
    told.k() < LAST_TURN && wants_more(told)
}
