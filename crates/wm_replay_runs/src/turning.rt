//! How a run goes on.
ghost use Rattle.std.specs.Prelude.{◌≡◌, ◌↔◌, ◌≤◌, if◌then◌else◌, IfOk, IsTrue, MatchOption};
ghost use Rattle.wm_replay_runs.specs.Away.{IsTurnOf};
ghost use Rattle.wm_machine.specs.Step.{after, IsTurn, Legal};
ghost use Rattle.wm_machine.specs.Valid.{Valid};
ghost use Rattle.wm_machine.specs.declared.event.Event.TheVariants as event;

use crate::giving::may_turn;
use crate::run_changes::{run_numbered, turn_run};
use crate::work_changes::{Telling, change_work};
use std::alloc::{AllocError, Global};
use wm_data::Data;
use wm_machine::State;

/// The last turn of a run, which has 1,000 of them.
pub const LAST_TURN: u32 = 999;

/// The next turn of the run of this number, whose worker tells this. It is legal where the run is
/// current and has a turn left, and its worker may tell so: then the run is at its next turn, and
/// its work tells this, where something is told.
pub fn turn(
    alloc: Global,
    state: &mut State,
    run: u64,
    progress: &Option<Data>,
) -> Result<bool, AllocError>
    requires valid { Valid state.old }
    ensures legal { IfOk result (λ legal. IsTrue legal ↔ Legal state.old (event.Turn run progress.entry.now)) }
    ensures state { IfOk result (λ legal. state.new
        ≡ (if legal then after state.old (event.Turn run progress.entry.now) else state.old)) }
{
    let Some(seq) = turning_work(alloc, state, run, progress)? else {
        return Ok(false);
    };
    change_work(alloc, &mut state.works, seq, &Telling { progress })?;
    turn_run(alloc, &mut state.runs, run);
    Ok(true)
}

/// The number of the work of the run of this number, where it may go on and tell this.
fn turning_work(
    alloc: Global,
    state: &State,
    number: u64,
    progress: &Option<Data>,
) -> Result<Option<u64>, AllocError>
    ensures { IfOk result (λ found. MatchOption found
        (IsTurn state.entry.now number progress.entry.now → ⊥)
        (IsTurnOf state.entry.now number progress.entry.now)) }
{
    let Some(run) = run_numbered(state.runs.as_slice(), number) else {
        return Ok(None);
    };
    if run.current && run.turn < LAST_TURN && may_turn(alloc, run, progress)? {
        Ok(Some(run.seq))
    } else {
        Ok(None)
    }
}
