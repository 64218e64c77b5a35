//! The changes of the runs of a state: the next one, a turn, a stop, a renewal, and the end of one.
ghost use Rattle.std.specs.Prelude.{◌≡◌, ◌≤◌};
ghost use Rattle.std.specs.List.{AllByRecursion};
ghost use Rattle.wm_collections.specs.Lists.{is_among};
ghost use Rattle.wm_machine.specs.Runs.{one_attempt_more, other_runs, run_on, with_stopped};
ghost use Rattle.wm_machine.specs.Turns.{with_turned};
ghost use Rattle.wm_machine.specs.Updated.{is_run_of, with_renewed};

use wm_collections::is_among;
use wm_data::Data;
use wm_machine::{Instance, Record, Run, State};

/// The next run, which is this attempt of a work on an instance, with this input. It takes no memory.
pub fn run_on(state: &State, work: &Record, attempt: u32, instance: &Instance, input: Data) -> Run
    requires { attempt ≡ one_attempt_more work.now.attempt }
    ensures { result ≡ run_on state.entry.now work.entry.now instance.entry.now input }
{
    Run {
        run: state.next_run,
        seq: work.seq,
        attempt,
        input,
        kind: instance.kind,
        instance: instance.number,
        constraints: work.request.constraints(),
        turn: 0,
        current: true,
        renewed: false,
    }
}

/// Has the run of this number at its next turn. It takes no memory.
pub fn turn_run(runs: &mut [Run], number: u64)
    requires { AllByRecursion (λ run. run.turn ≤ 999) runs.old }
    ensures { runs.new ≡ with_turned number runs.old }
{
    for run in runs.iter_mut() {
        if run.run == number {
            run.turn += 1;
        }
    }
}

/// Has the runs of these numbers stopped. It takes no memory.
pub fn stop_runs(runs: &mut [Run], numbers: &[u64])
    ensures { runs.new ≡ with_stopped (λ run. is_among numbers.now run.run) runs.old }
{
    for run in runs.iter_mut() {
        if is_among(numbers, run.run) {
            run.current = false;
        }
    }
}

/// Has the current run of the work of this number renewed. It takes no memory.
pub fn renew_run(runs: &mut [Run], seq: u64)
    ensures { runs.new ≡ with_renewed (is_run_of seq) runs.old }
{
    for run in runs.iter_mut() {
        if is_run_of(run, seq) {
            run.renewed = true;
        }
    }
}

/// Whether a run is the current one of the work of this number.
fn is_run_of(run: &Run, seq: u64) -> bool
    ensures { result ≡ is_run_of seq run.now }
{
    run.current && run.seq == seq
}

/// Takes the run of this number out.
pub fn remove_run(runs: &mut Vec<Run>, number: u64)
    ensures { runs.new.items ≡ other_runs number runs.old.items }
{
    runs.retain(|run| run.run != number);
}
