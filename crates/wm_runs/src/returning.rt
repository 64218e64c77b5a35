//! How a run comes back that was stopped.
ghost use Rattle.std.specs.Prelude.{false};
ghost use Rattle.wm_runs.specs.Builds.{IsReturn};
ghost use Rattle.wm_runs.specs.Reports.{IsOut};

use std::alloc::Global;
use wm_changes::{RunChange, SettingChange, StepChange};
use wm_machine::Event;
use wm_steps::View;

/// The return of the run of this number, which is out and was stopped: it is over, and its instance
/// idle, and nothing else changes. It takes no memory.
pub fn returned(alloc: Global, view: &View, number: u64) -> StepChange
    requires { IsOut view.now number false }
    ensures { IsReturn view.entry.now number result }
{
    // what the type of a view keeps is known where a field of it is read
    let _reached = &view.state;
    let Some(run) = view.run(number) else {
        unreachable!();
    };
    let event = Event::Late { run: number };
    let mut change = StepChange::setting(alloc, SettingChange::Unchanged, event);
    change.run = RunChange::End {
        run: number,
        instance: run.instance,
    };
    change
}
