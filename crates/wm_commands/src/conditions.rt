//! The conditions are set, all seven together, which stops the runs that they don't allow.
ghost use Rattle.std.specs.Prelude.{◌≡◌, IfOk};
ghost use Rattle.wm_settings.specs.Builds.{IsExecuted};
ghost use Rattle.wm_commands.specs.PutBack.{put_back_by, stopped_under};
ghost use Rattle.wm_machine.specs.Settings.{is_put_back_by, is_stopped_by};

use std::alloc::{AllocError, Global};
use wm_changes::{Replacement, RunChange, SettingChange, StepChange};
use wm_collections::{Items, both};
use wm_conditions::{Conditions, met};
use wm_lifecycle::stopped;
use wm_machine::{Command, Record, Reply, Run};
use wm_settings::event_of;
use wm_steps::View;

/// What new conditions come to: the current runs whose constraints they don't meet are stopped, and
/// their works wait.
pub fn execute(
    alloc: Global,
    view: &View,
    line: u32,
    conditions: Conditions,
) -> Result<StepChange, AllocError>
    ensures { IfOk result (IsExecuted view.entry.now line (Command.Conditions conditions)) }
{
    let runs = view.state.runs.as_slice();
    let replaced = put_back_by(alloc, view.state.works.as_slice(), runs, &conditions)?;
    let stopped = stopped_under(alloc, runs, &conditions)?;
    let count = stopped.len() as u64;
    let command = Command::Conditions(conditions);
    let event = event_of(alloc, line, command, Reply::Conditions { stopped: count });
    let ((replaced, stopped), event) = both((replaced, stopped), event)?;
    let to = SettingChange::Conditions(conditions);
    let run = RunChange::Stop(stopped);
    Ok(StepChange::setting_with(alloc, to, replaced, run, event))
}

/// The numbers of the runs that such conditions stop.
fn stopped_under(
    alloc: Global,
    runs: &[Run],
    conditions: &Conditions,
) -> Result<Items<u64>, AllocError>
    ensures { IfOk result (λ numbers. numbers ≡ stopped_under conditions.entry.now runs.now) }
{
    let mut numbers = Items::new(alloc);
    for run in runs {
        if is_stopped_by(conditions, run) {
            numbers.push(run.run)?;
        }
    }
    Ok(numbers)
}

/// Whether such conditions stop a run: it is current, and they don't meet the constraints that it
/// took.
fn is_stopped_by(conditions: &Conditions, run: &Run) -> bool
    ensures { result ≡ is_stopped_by conditions.now run.now }
{
    run.current && !met(&run.constraints, conditions)
}

/// The records that take the place of those whose runs such conditions stop.
fn put_back_by(
    alloc: Global,
    works: &[Record],
    runs: &[Run],
    conditions: &Conditions,
) -> Result<Items<Replacement>, AllocError>
    ensures { IfOk result (λ replaced. replaced
        ≡ put_back_by conditions.entry.now runs.entry.now works.entry.now) }
{
    let mut replaced = Items::new(alloc);
    for (index, work) in works.iter().enumerate() {
        if is_put_back_by(conditions, runs, work) {
            let work = stopped(alloc, work)?;
            replaced.push(Replacement { index, work })?;
        }
    }
    Ok(replaced)
}

/// Whether such conditions stop a run of this work.
fn is_put_back_by(conditions: &Conditions, runs: &[Run], work: &Record) -> bool
    ensures { result ≡ is_put_back_by conditions.now runs.now work.now }
{
    runs.iter().any(|run| run.seq == work.seq && is_stopped_by(conditions, run))
}
