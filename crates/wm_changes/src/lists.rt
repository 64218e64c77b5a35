//! How a change is made in the lists of a state: first room is made for what comes, and then all of it
//! is changed, which takes no memory.
ghost use Rattle.std.specs.Prelude.{◌≡◌, ◌+◌, ◌^◌, ◌<◌, ◌≤◌, ◌++◌, [], filter, length, vec_len, vec_capacity, not, OnOk};
ghost use Rattle.std.specs.List.{AllByRecursion};
ghost use Rattle.wm_changes.specs.StepChanges.{changed_works, instances_by, new_observers, new_runs, next_run_by, observers_by, runs_by, set_by, with_replaced, without, HasNextRun};
ghost use Rattle.wm_collections.specs.Lists.{is_among};
ghost use Rattle.wm_graph.specs.Numbers.{Ascend};
ghost use Rattle.wm_machine.specs.Valid.{AreNumberedInOrder};

use crate::change::{Replacement, RunChange, SettingChange, StepChange};
use std::alloc::{AllocError, Global};
use std::mem;
use wm_collections::Items;
use wm_graph::is_listed;
use wm_lifecycle::{remove_run, renew_run, retire_each, set_out, stop_runs, turn_run};
use wm_machine::{Event, Record, Run, State, WorkQuery};

/// The lists of a state that a change adds to, while their room counts.
#[derive(Drop)]
pub struct Lists {
    pub works: Vec<Record>,
    pub runs: Vec<Run>,
    pub observers: Vec<WorkQuery>,
}

impl Lists {
    /// Takes the lists out of a state. It takes no memory.
    pub fn take(alloc: Global, state: &mut State) -> Lists
        ensures works { result.works.items ≡ state.old.works }
        ensures runs { result.runs.items ≡ state.old.runs }
        ensures observers { result.observers.items ≡ state.old.observers }
        ensures state { state.new ≡ record state.old { works = []; runs = []; observers = [] } }
    {
        Lists {
            works: mem::replace(&mut state.works, Items::new(alloc)).into_vec(),
            runs: mem::replace(&mut state.runs, Items::new(alloc)).into_vec(),
            observers: mem::replace(&mut state.observers, Items::new(alloc)).into_vec(),
        }
    }

    /// Puts the lists back. It takes no memory.
    pub fn put_back(self, state: &mut State)
        ensures { state.new ≡ record state.old {
          works = self.works.items;
          runs = self.runs.items;
          observers = self.observers.items;
        } }
    {
        state.works = Items::from_vec(self.works);
        state.runs = Items::from_vec(self.runs);
        state.observers = Items::from_vec(self.observers);
    }

    /// Makes room for so many works and so many observers, and for a run. Where memory is refused, the
    /// lists stay as they are.
    pub fn reserve(&mut self, works: usize, observers: usize) -> Result<(), AllocError>
        ensures works { self.new.works.items ≡ self.old.works.items }
        ensures runs { self.new.runs.items ≡ self.old.runs.items }
        ensures observers { self.new.observers.items ≡ self.old.observers.items }
        ensures works_room { OnOk result (vec_len self.new.works + works ≤ vec_capacity self.new.works) }
        ensures run_room { OnOk result (vec_len self.new.runs < vec_capacity self.new.runs) }
        ensures observer_room { OnOk result (vec_len self.new.observers + observers ≤ vec_capacity self.new.observers) }
    {
        self.works.reserve(works)?;
        self.runs.reserve(1)?;
        self.observers.reserve(observers)
    }

    /// Makes a change, for which there is room, and answers its event. It takes no memory.
    pub fn change(&mut self, alloc: Global, state: &mut State, change: StepChange) -> Event
        requires told { AllByRecursion (λ told. told.index < vec_len self.old.works) change.told }
        requires replaced { AllByRecursion (λ replaced. replaced.index < vec_len self.old.works) change.replaced }
        requires turns { AllByRecursion (λ run. run.turn ≤ 999) self.old.runs.items }
        requires next { state.old.next + length change.placed ≤ 2 ^ 53 }
        requires few { HasNextRun change.run state.old.next_run }
        requires instances { AreNumberedInOrder 0 state.old.instances }
        requires works_room { vec_len self.old.works + length change.placed ≤ vec_capacity self.old.works }
        requires run_room { vec_len self.old.runs + new_runs change.run ≤ vec_capacity self.old.runs }
        requires observer_room { vec_len self.old.observers + new_observers change.setting ≤ vec_capacity self.old.observers }
        ensures works { self.new.works.items ≡ changed_works change self.old.works.items }
        ensures runs { self.new.runs.items ≡ runs_by change.run self.old.runs.items }
        ensures observers { self.new.observers.items ≡ observers_by change.setting self.old.observers.items }
        ensures state { state.new ≡ record (set_by change.setting (record state.old {
          instances = instances_by change.run state.old.instances;
          next = state.old.next + length change.placed;
          next_run = next_run_by change.run state.old.next_run;
        })) { observers = state.old.observers } }
        ensures event { result ≡ change.event }
    {
        let StepChange {
            told,
            replaced,
            removed,
            placed,
            run,
            setting,
            event,
        } = change;
        state.next += placed.len() as u64;
        replace_works(&mut self.works, told.into_vec());
        replace_works(&mut self.works, replaced.into_vec());
        remove_works(&mut self.works, removed);
        append(&mut self.works, placed);
        change_runs(alloc, &mut self.runs, state, run);
        change_setting(alloc, state, &mut self.observers, setting);
        event
    }
}

/// Puts records in the places of others.
fn replace_works(works: &mut Vec<Record>, replaced: Vec<Replacement>)
    requires { AllByRecursion (λ replaced. replaced.index < vec_len works.old) replaced.items }
    ensures works { works.new.items ≡ with_replaced replaced.items works.old.items }
    ensures len { vec_len works.new ≡ vec_len works.old }
    ensures capacity { vec_capacity works.new ≡ vec_capacity works.old }
{
    for replacement in replaced {
        let Replacement { index, work } = replacement;
        works[index] = work;
    }
}

/// Takes the records of these numbers out, in one pass. It takes no memory.
fn remove_works(works: &mut Vec<Record>, removed: Items<u64>)
    ensures works { works.new.items ≡ without removed works.old.items }
    ensures len { vec_len works.new ≤ vec_len works.old }
    ensures capacity { vec_capacity works.new ≡ vec_capacity works.old }
{
    if removed.is_empty() {
        return;
    }
    let mut numbers = removed.into_vec();
    numbers.sort_unstable();
    remove_listed(works, &numbers);
}

/// Takes the records of these numbers out, which ascend.
fn remove_listed(works: &mut Vec<Record>, numbers: &[u64])
    requires { Ascend numbers.now }
    ensures works { works.new.items ≡ filter (λ work. not (is_among numbers.now work.seq)) works.old.items }
    ensures len { vec_len works.new ≤ vec_len works.old }
    ensures capacity { vec_capacity works.new ≡ vec_capacity works.old }
{
    works.retain(|work| !is_listed(numbers, work.seq));
}

/// Adds values at the end. There is room for them.
fn append<T: Drop>(values: &mut Vec<T>, more: Items<T>)
    requires { vec_len values.old + length more ≤ vec_capacity values.old }
    ensures { values.new.items ≡ values.old.items ++ more }
{
    let mut more = more.into_vec();
    values.append(&mut more).unwrap();
}

/// Changes the runs and their instances. There is room for a run that begins.
fn change_runs(alloc: Global, runs: &mut Vec<Run>, state: &mut State, change: RunChange)
    requires room { vec_len runs.old + new_runs change ≤ vec_capacity runs.old }
    requires turns { AllByRecursion (λ run. run.turn ≤ 999) runs.old.items }
    requires few { HasNextRun change state.old.next_run }
    requires instances { AreNumberedInOrder 0 state.old.instances }
    ensures runs { runs.new.items ≡ runs_by change runs.old.items }
    ensures state { state.new ≡ record state.old {
      instances = instances_by change state.old.instances;
      next_run = next_run_by change state.old.next_run;
    } }
{
    match change {
        RunChange::Unchanged => {}
        RunChange::Begin(run) => {
            set_out(alloc, &mut state.instances, run.instance, true);
            runs.push_reserved(run);
            state.next_run += 1;
        }
        RunChange::Turn(run) => turn_run(runs.as_mut_slice(), run),
        RunChange::End { run, instance } => {
            remove_run(runs, run);
            set_out(alloc, &mut state.instances, instance, false);
        }
        RunChange::Stop(numbers) => stop_runs(runs.as_mut_slice(), numbers.as_slice()),
        RunChange::Renew(seq) => renew_run(runs.as_mut_slice(), seq),
    }
}

/// How many observers there are more where this is set.
pub fn new_observers(setting: &SettingChange) -> usize
    ensures { result ≡ new_observers setting.now }
{
    match setting {
        SettingChange::Observe(_) => 1,
        _ => 0,
    }
}

/// Sets what is set. There is room for an observer that is new.
fn change_setting(
    alloc: Global,
    state: &mut State,
    observers: &mut Vec<WorkQuery>,
    setting: SettingChange,
)
    requires { vec_len observers.old + new_observers setting ≤ vec_capacity observers.old }
    ensures state { state.new ≡ record (set_by setting state.old) { observers = state.old.observers } }
    ensures observers { observers.new.items ≡ observers_by setting observers.old.items }
{
    match setting {
        SettingChange::Unchanged => {}
        SettingChange::Moment(at) => state.now = at,
        SettingChange::Conditions(conditions) => state.conditions = conditions,
        SettingChange::Retire(class) => retire_each(alloc, &mut state.instances, &class),
        SettingChange::Observe(query) => observers.push_reserved(query),
        SettingChange::Hush => state.hushed = true,
    }
}
