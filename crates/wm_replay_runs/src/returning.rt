//! How a run comes back that was stopped.
ghost use Rattle.std.specs.Prelude.{◌≡◌, ◌↔◌, if◌then◌else◌, IsTrue, MatchOption};
ghost use Rattle.wm_replay_runs.specs.Away.{IsAwayFrom};
ghost use Rattle.wm_machine.specs.Step.{after, IsLate, Legal};
ghost use Rattle.wm_machine.specs.Valid.{Valid};
ghost use Rattle.wm_machine.specs.declared.event.Event.TheVariants as event;

use crate::run_changes::{remove_run, run_numbered};
use std::alloc::Global;
use wm_lifecycle::set_out;
use wm_machine::State;

/// The return of the run of this number. It is legal where the run is unreturned and was stopped:
/// then the run is away, and its instance isn't out any more. It takes no memory.
pub fn late(alloc: Global, state: &mut State, run: u64) -> bool
    requires valid { Valid state.old }
    ensures legal { IsTrue result ↔ Legal state.old (event.Late run) }
    ensures state { state.new ≡ (if result then after state.old (event.Late run) else state.old) }
{
    let Some(instance) = stopped_instance(state, run) else {
        return false;
    };
    remove_run(alloc, &mut state.runs, run);
    set_out(alloc, &mut state.instances, instance, false);
    true
}

/// The instance of the run of this number, where it is unreturned and was stopped.
fn stopped_instance(state: &State, number: u64) -> Option<u32>
    ensures { MatchOption result (IsLate state.entry.now number → ⊥) (IsAwayFrom state.entry.now number) }
{
    match run_numbered(state.runs.as_slice(), number) {
        Some(run) if !run.current => Some(run.instance),
        _ => None,
    }
}
