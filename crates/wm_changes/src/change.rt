//! What a step is about to do.
ghost use Rattle.std.specs.Prelude.{◌≡◌, IfOk};
ghost use Rattle.wm_changes.specs.StepChanges.{keeping_row, moves_instance, placing, removing, replacing, replacing_all, retires, setting, setting_with, touches_instances};

use std::alloc::{AllocError, Global};
use wm_collections::{Items, Text, both, one};
use wm_conditions::Conditions;
use wm_machine::{Event, Record, Run, WorkQuery};

/// A record that takes the place of the one at an index.
#[derive(Drop)]
pub struct Replacement {
    pub index: usize,
    pub work: Record,
}

/// What becomes of runs and instances in a step.
#[derive(Drop)]
pub enum RunChange {
    /// They stay as they are.
    Unchanged,
    /// This run begins, and its instance is out.
    Begin(Run),
    /// The run of this number is at its next turn.
    Turn(u64),
    /// The run of this number is over, and this instance is idle.
    End { run: u64, instance: u32 },
    /// The runs of these numbers are stopped: they aren't current any more.
    Stop(Items<u64>),
    /// The current run of the work of this number is renewed: what its work has for the next run was
    /// set anew.
    Renew(u64),
}

impl RunChange {
    /// Whether a run begins or is over, so that an instance is another one after it.
    fn moves_instance(&self) -> bool
        ensures { result ≡ moves_instance self.now }
    {
        matches!(self, RunChange::Begin(_) | RunChange::End { .. })
    }
}

/// What is set in a step: the moment, the conditions, which instances are retired, an observer, or
/// what is written.
#[derive(Drop)]
pub enum SettingChange {
    /// Nothing.
    Unchanged,
    /// This is the moment.
    Moment(u64),
    /// These are the conditions.
    Conditions(Conditions),
    /// The instances of this class are retired.
    Retire(Text),
    /// There is one observer more, of this query.
    Observe(WorkQuery),
    /// From now on only summaries are written.
    Hush,
}

impl SettingChange {
    /// Whether the instances of a class are retired.
    fn retires(&self) -> bool
        ensures { result ≡ retires self.now }
    {
        matches!(self, SettingChange::Retire(_))
    }
}

/// All that one step is about to do, with its memory taken.
#[derive(Drop)]
pub struct StepChange {
    /// The records that take the place of others of their rows.
    pub told: Items<Replacement>,
    /// The records that take the place of others of their numbers.
    pub replaced: Items<Replacement>,
    /// The numbers of the records that are removed.
    pub removed: Items<u64>,
    /// The new records, which go to the end under the next numbers.
    pub placed: Items<Record>,
    /// What becomes of runs and instances.
    pub run: RunChange,
    /// What is set, if anything.
    pub setting: SettingChange,
    /// The event of the step.
    pub event: Event,
}

impl StepChange {
    /// Whether some instance may be another one after it.
    pub fn touches_instances(&self) -> bool
        ensures { result ≡ touches_instances self.now }
    {
        self.run.moves_instance() || self.setting.retires()
    }

    /// A change of the log, and of what is set, if anything.
    pub fn setting(alloc: Global, to: SettingChange, event: Event) -> StepChange
        ensures { result ≡ setting to event }
    {
        StepChange {
            told: Items::new(alloc),
            replaced: Items::new(alloc),
            removed: Items::new(alloc),
            placed: Items::new(alloc),
            run: RunChange::Unchanged,
            setting: to,
            event,
        }
    }

    /// The change of the record at an index to this one, and of the runs.
    pub fn replacing(
        alloc: Global,
        index: usize,
        work: Record,
        run: RunChange,
        event: Event,
    ) -> Result<StepChange, AllocError>
        ensures { IfOk result (λ change. change ≡ replacing index work run event) }
    {
        let replaced = one(alloc, Replacement { index, work });
        let ((run, event), replaced) = both((run, event), replaced)?;
        Ok(StepChange::replacing_all(alloc, replaced, run, event))
    }

    /// The change of the record at an index to this one, which has the same row, and of the runs.
    pub fn keeping_row(
        alloc: Global,
        index: usize,
        work: Record,
        run: RunChange,
        event: Event,
    ) -> Result<StepChange, AllocError>
        ensures { IfOk result (λ change. change ≡ keeping_row index work run event) }
    {
        let told = one(alloc, Replacement { index, work });
        let ((run, event), told) = both((run, event), told)?;
        let mut change = StepChange::setting(alloc, SettingChange::Unchanged, event);
        change.told = told;
        change.run = run;
        Ok(change)
    }

    /// The change to these records in the places of others, and of the runs. It takes no memory.
    pub fn replacing_all(
        alloc: Global,
        replaced: Items<Replacement>,
        run: RunChange,
        event: Event,
    ) -> StepChange
        ensures { result ≡ replacing_all replaced run event }
    {
        let mut change = StepChange::setting(alloc, SettingChange::Unchanged, event);
        change.replaced = replaced;
        change.run = run;
        change
    }

    /// The change by which the records of these numbers are removed. It takes no memory.
    pub fn removing(alloc: Global, removed: Items<u64>, event: Event) -> StepChange
        ensures { result ≡ removing removed event }
    {
        let mut change = StepChange::setting(alloc, SettingChange::Unchanged, event);
        change.removed = removed;
        change
    }

    /// The change to these records in the places of others, without those of these numbers, and by
    /// these records more, and of the runs. It takes no memory.
    pub fn placing(
        alloc: Global,
        replaced: Items<Replacement>,
        removed: Items<u64>,
        placed: Items<Record>,
        run: RunChange,
        event: Event,
    ) -> StepChange
        ensures { result ≡ placing replaced removed placed run event }
    {
        let mut change = StepChange::removing(alloc, removed, event);
        change.replaced = replaced;
        change.placed = placed;
        change.run = run;
        change
    }

    /// The change by which something is set, to these records in the places of others, and of the
    /// runs. It takes no memory.
    pub fn setting_with(
        alloc: Global,
        to: SettingChange,
        replaced: Items<Replacement>,
        run: RunChange,
        event: Event,
    ) -> StepChange
        ensures { result ≡ setting_with to replaced run event }
    {
        let mut change = StepChange::setting(alloc, to, event);
        change.replaced = replaced;
        change.run = run;
        change
    }
}
