//! What becomes of the runs of a state, and how one is found.
ghost use Rattle.std.specs.Prelude.{◌≡◌, ◌≤◌};
ghost use Rattle.std.specs.List.{AllByRecursion};
ghost use Rattle.std.specs.Option.{option_copied};
ghost use Rattle.wm_machine.specs.Runs.{other_runs, run_numbered};
ghost use Rattle.wm_machine.specs.Turns.{with_turned};

use std::alloc::Global;
use std::mem;
use wm_collections::Items;
use wm_machine::Run;

/// The run of this number.
pub fn run_numbered(runs: &[Run], number: u64) -> Option<&Run>
    ensures { option_copied result ≡ run_numbered number runs.now }
{
    runs.iter().find(|run| run.run == number)
}

/// Takes the run of this number out. It takes no memory.
pub fn remove_run(alloc: Global, runs: &mut Items<Run>, number: u64)
    ensures { runs.new ≡ other_runs number runs.old }
{
    let mut elements = mem::replace(runs, Items::new(alloc)).into_vec();
    wm_lifecycle::remove_run(&mut elements, number);
    *runs = Items::from_vec(elements);
}

/// Has the run of this number at its next turn. It takes no memory.
pub fn turn_run(alloc: Global, runs: &mut Items<Run>, number: u64)
    requires turns { AllByRecursion (λ run. run.turn ≤ 999) runs.old }
    ensures { runs.new ≡ with_turned number runs.old }
{
    let mut elements = mem::replace(runs, Items::new(alloc)).into_vec();
    wm_lifecycle::turn_run(elements.as_mut_slice(), number);
    *runs = Items::from_vec(elements);
}
