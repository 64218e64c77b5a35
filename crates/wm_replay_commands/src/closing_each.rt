//! What the closing of works makes of a state: of the records, and of the runs.
ghost use Rattle.std.specs.Prelude.{◌≡◌, OnOk};
ghost use Rattle.wm_collections.specs.Lists.{AllLater};
ghost use Rattle.wm_machine.specs.Closed.{is_run_reached, with_work_closed, with_works_closed};
ghost use Rattle.wm_machine.specs.Runs.{with_stopped};
ghost use Rattle.wm_machine.specs.Valid.{IsBefore};

use std::alloc::{AllocError, Global};
use wm_collections::{Items, is_among};
use wm_machine::{How, Record, Run, State};
use wm_replay_runs::changing::{Change, change_items};
use wm_replay_runs::closing::{close_work, reached};

/// Closes the works of these numbers, one after another, each with its unfinished descendants: they
/// are finished in this way now, and their runs aren't current any more.
pub fn close_each(
    alloc: Global,
    state: &mut State,
    seqs: &[u64],
    how: How,
) -> Result<(), AllocError>
    requires { AllLater IsBefore state.old.works }
    ensures closed { OnOk result (state.new ≡ with_works_closed how seqs.now state.old) }
    ensures in_order { OnOk result (AllLater IsBefore state.new.works) }
{
    for seq in seqs {
        close(alloc, state, *seq, how)?;
    }
    Ok(())
}

/// Closes the work of this number with its unfinished descendants.
fn close(alloc: Global, state: &mut State, seq: u64, how: How) -> Result<(), AllocError>
    requires { AllLater IsBefore state.old.works }
    ensures { OnOk result (state.new ≡ with_work_closed how seq state.old) }
{
    let now = state.now;
    stop_reached(alloc, &mut state.runs, state.works.as_slice(), seq)?;
    close_work(alloc, &mut state.works, seq, how, now)
}

/// Stops the runs of the unfinished descendants of the work of this number.
fn stop_reached(
    alloc: Global,
    runs: &mut Items<Run>,
    works: &[Record],
    seq: u64,
) -> Result<(), AllocError>
    ensures { OnOk result (runs.new ≡ with_stopped (is_run_reached seq works.now) runs.old) }
{
    let numbers = reached(alloc, works, seq)?;
    change_items(alloc, runs, &Stopping { numbers })
}

/// The runs of the works of these numbers aren't current any more.
#[derive(Drop)]
struct Stopping {
    numbers: Items<u64>,
}

impl Change<Run> for Stopping {
    ghost use Rattle.wm_collections.specs.Lists.{is_among};
    ghost use Rattle.wm_machine.specs.Runs.{stopped};

    ghost meant = { λ c run. is_among c.numbers run.seq };

    ghost made = { λ _ run. stopped run };

    fn is_meant(&self, run: &Run) -> bool {
        is_among(self.numbers.as_slice(), run.seq)
    }

    fn make(&self, _alloc: Global, run: &mut Run) -> Result<(), AllocError> {
        run.current = false;
        Ok(())
    }
}
