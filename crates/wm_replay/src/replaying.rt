//! The step of an event of a run.
ghost use Rattle.std.specs.Prelude.{◌<◌, IfOk, IsTrue};
ghost use Rattle.wm_machine.specs.Valid.{Valid};
ghost use Rattle.wm_replay.specs.Stepped.{GoesOn, IsOfRun, IsStepped};

use std::alloc::{AllocError, Global};
use wm_machine::{Event, State};
use wm_replay_runs::{finish, late, start, start_failed, timed_out, turn};

/// The step of an event of a run: whether it is legal in a state. Where it is, the state becomes the
/// one after it. Memory that is refused is the only error.
pub fn replay(alloc: Global, state: &mut State, event: &Event) -> Result<bool, AllocError>
    requires valid { Valid state.old }
    requires few_runs { state.old.next_run < 18446744073709551615 }
    requires of_run { IsOfRun event.now }
    ensures stepped { IfOk result (λ legal. IsStepped state.old event.entry.now legal state.new) }
    ensures goes_on { IfOk result (λ legal. IsTrue legal → GoesOn state.old state.new) }
{
    make(alloc, state, event)
}

/// The step of an event of a run.
fn make(alloc: Global, state: &mut State, event: &Event) -> Result<bool, AllocError>
    requires valid { Valid state.old }
    requires few_runs { state.old.next_run < 18446744073709551615 }
    requires of_run { IsOfRun event.now }
    ensures { IfOk result (λ legal. IsStepped state.old event.entry.now legal state.new) }
{
    match event {
        Event::Command { .. } => unreachable!(),
        Event::Start {
            run,
            seq,
            instance,
            input,
        } => start(alloc, state, *run, *seq, *instance, input),
        Event::StartFailed { seq, cause } => start_failed(alloc, state, *seq, cause),
        Event::Turn { run, progress } => turn(alloc, state, *run, progress),
        Event::Finish { run, end } => finish(alloc, state, *run, end),
        Event::TimedOut { run } => timed_out(alloc, state, *run),
        Event::Late { run } => Ok(late(alloc, state, *run)),
    }
}
