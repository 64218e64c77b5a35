//! The command that sets the conditions.
ghost use Rattle.std.specs.Prelude.{◌≡◌, if◌then◌else◌, count_by, map, IfOk, OnOk};
ghost use Rattle.wm_machine.specs.Settings.{conditioned, is_put_back_by, is_stopped_by, put_back};

use std::alloc::{AllocError, Global};
use wm_conditions::{Conditions, met};
use wm_machine::{Record, Reply, Run, State};
use wm_replay_runs::changing::{Change, change_items};

/// The command that sets all seven conditions, and counts the current runs that they stop: those
/// whose constraints they don't meet. The works of these wait.
pub fn set_conditions(
    alloc: Global,
    state: &mut State,
    conditions: Conditions,
) -> Result<Reply, AllocError>
    ensures { IfOk result (λ reply. conditioned state.old conditions ≡ record {
      reply = reply;
      state = state.new;
    }) }
{
    let stopped = count_stopped(state.runs.as_slice(), &conditions);
    put_back(alloc, state, conditions)?;
    change_items(alloc, &mut state.runs, &Stopping { conditions })?;
    state.conditions = conditions;
    Ok(Reply::Conditions { stopped })
}

/// Has the works wait whose runs such conditions stop.
fn put_back(alloc: Global, state: &mut State, conditions: Conditions) -> Result<(), AllocError>
    ensures { OnOk result (state.new ≡ record state.old {
      works =
          map (λ work. if is_put_back_by conditions state.old.runs work then put_back work else work) state.old.works;
    }) }
{
    let runs = state.runs.as_slice();
    change_items(alloc, &mut state.works, &PuttingBack { conditions, runs })
}

/// How many runs such conditions stop.
fn count_stopped(runs: &[Run], conditions: &Conditions) -> u64
    ensures { result ≡ count_by (is_stopped_by conditions.entry.now) runs.entry.now }
{
    let mut count = 0;
    for run in runs {
        if is_stopped_by(conditions, run) {
            count += 1;
        }
    }
    count
}

/// Whether such conditions stop a run: it is current, and they don't meet the constraints that it
/// took.
fn is_stopped_by(conditions: &Conditions, run: &Run) -> bool
    ensures { result ≡ is_stopped_by conditions.entry.now run.entry.now }
{
    run.current && !met(&run.constraints, conditions)
}

/// The works of the runs that such conditions stop wait.
#[derive(Clone, Copy)]
struct PuttingBack<'a> {
    conditions: Conditions,
    runs: &'a [Run],
}

impl Change<Record> for PuttingBack<'_> {
    ghost use Rattle.wm_machine.specs.Settings.{is_put_back_by, put_back};

    ghost meant = { λ c work. is_put_back_by c.conditions c.runs.now work };

    ghost made = { λ _ work. put_back work };

    fn is_meant(&self, work: &Record) -> bool {
        self.runs.iter().any(|run| run.seq == work.seq && is_stopped_by(&self.conditions, run))
    }

    fn make(&self, alloc: Global, work: &mut Record) -> Result<(), AllocError> {
        *work = wm_lifecycle::stopped(alloc, work)?;
        Ok(())
    }
}

/// The runs that such conditions stop aren't current any more.
#[derive(Clone, Copy)]
struct Stopping {
    conditions: Conditions,
}

impl Change<Run> for Stopping {
    ghost use Rattle.wm_machine.specs.Runs.{stopped};
    ghost use Rattle.wm_machine.specs.Settings.{is_stopped_by};

    ghost meant = { λ c run. is_stopped_by c.conditions run };

    ghost made = { λ _ run. stopped run };

    fn is_meant(&self, run: &Run) -> bool {
        is_stopped_by(&self.conditions, run)
    }

    fn make(&self, _alloc: Global, run: &mut Run) -> Result<(), AllocError> {
        run.current = false;
        Ok(())
    }
}
