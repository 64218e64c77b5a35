//! Laws of steps and of what comes next, over the definitions alone. Each is the contract of a function
//! that does nothing.
ghost use Rattle.std.specs.Prelude.{◌≡◌, ℕ, List, [], true, None, Option};
ghost use Rattle.std.specs.List.{AllByRecursion};
ghost use Rattle.wm_machine.specs.First.{first_of, has_room};
ghost use Rattle.wm_machine.specs.Valid.{Valid};
ghost use Rattle.wm_machine.specs.declared.state.State.{State};
ghost use Rattle.wm_changes.specs.Readiness.{StaysReady};
ghost use Rattle.wm_changes.specs.StepChanges.{changed_state, IsStepOf};
ghost use Rattle.wm_steps.specs.Wakes.{IsWakeOf, WakesAt};
ghost use Rattle.wm_changes.specs.declared.change.StepChange.{StepChange};

/// A work that a step doesn't touch is as ready after it as before: it waits, and each of its
/// prerequisites has succeeded, just where that held before.
pub fn untouched_works_stay_as_ready()
    ensures { (s : State) (change : StepChange) → Valid s → IsStepOf s change
        → AllByRecursion (StaysReady s.works (changed_state change s).works change) s.works }
{}

/// Where nothing is startable, and with the rest of the state as it is, nothing is startable at any
/// moment before it wakes, and something is at that moment. Where it doesn't wake nothing is startable
/// at any moment.
pub fn a_state_wakes_when_a_work_is_due()
    ensures { (s : State) → first_of s ≡ None → (wake : Option ℕ) → IsWakeOf s wake → WakesAt s wake }
{}

/// Where no run is out, each class has room: no work has to wait for an instance.
pub fn each_class_has_room_without_a_run()
    ensures { (s : State) → Valid s → s.runs ≡ [] → (class : List ℕ) → has_room s.instances class ≡ true }
{}
