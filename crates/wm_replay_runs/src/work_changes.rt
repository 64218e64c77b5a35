//! What becomes of the record of the work of a number.
ghost use Rattle.std.specs.Prelude.{◌≡◌, OnOk};
ghost use Rattle.wm_machine.specs.Runs.{changed_work};

use crate::changing::{Change, change_items};
use std::alloc::{AllocError, Global};
use wm_collections::{Items, Replica};
use wm_data::Data;
use wm_machine::{End, How, Phase, Record};

/// What becomes of a work.
pub trait WorkChange {
    ghost use Rattle.wm_machine.specs.declared.record.Record.{Record};

    /// What it becomes.
    ghost becomes: { Self → Record → Record };

    /// Changes the record.
    fn make(&self, alloc: Global, work: &mut Record) -> Result<(), AllocError>
        ensures { OnOk result (work.new ≡ becomes self.now work.old) };
}

/// The change of the work of a number.
#[derive(Drop)]
struct Numbered<'a, M> {
    seq: u64,
    change: &'a M,
}

impl<M: WorkChange> Change<Record> for Numbered<'_, M> {
    ghost use Rattle.std.specs.Prelude.{◌==◌};

    ghost meant = { λ c work. work.seq == c.seq };

    ghost made = { λ c work. M.becomes c.change.now work };

    fn is_meant(&self, work: &Record) -> bool {
        work.seq == self.seq
    }

    fn make(&self, alloc: Global, work: &mut Record) -> Result<(), AllocError> {
        self.change.make(alloc, work)
    }
}

/// Changes the work of this number.
pub fn change_work<M: WorkChange>(
    alloc: Global,
    works: &mut Items<Record>,
    seq: u64,
    change: &M,
) -> Result<(), AllocError>
    ensures { OnOk result (works.new ≡ changed_work (M.becomes change.now) seq works.old) }
{
    change_items(alloc, works, &Numbered { seq, change })
}

/// Its run begins.
#[derive(Clone, Copy)]
pub struct Started;

impl WorkChange for Started {
    ghost use Rattle.wm_machine.specs.Runs.{started};

    ghost becomes = { λ _ work. started work };

    fn make(&self, alloc: Global, work: &mut Record) -> Result<(), AllocError> {
        *work = wm_lifecycle::started(alloc, work)?;
        Ok(())
    }
}

/// It is to be tried again, from a moment on, after a run that was renewed or wasn't.
#[derive(Clone, Copy)]
pub struct Retried {
    pub renewed: bool,
    pub now: u64,
}

impl WorkChange for Retried {
    ghost use Rattle.wm_machine.specs.Ends.{retried};

    ghost becomes = { λ c work. retried c.renewed c.now work };

    fn make(&self, alloc: Global, work: &mut Record) -> Result<(), AllocError> {
        *work = wm_lifecycle::timed_out(alloc, work, self.now, self.renewed)?;
        Ok(())
    }
}

/// Its run ended so at a moment, and was renewed or wasn't.
#[derive(Clone, Copy)]
pub struct Ended<'a> {
    pub renewed: bool,
    pub now: u64,
    pub end: &'a End,
}

impl WorkChange for Ended<'_> {
    ghost use Rattle.wm_machine.specs.Ends.{ended};

    ghost becomes = { λ c work. ended c.renewed c.now c.end.now work };

    fn make(&self, alloc: Global, work: &mut Record) -> Result<(), AllocError> {
        *work = wm_lifecycle::ended(alloc, work, self.end, self.now, self.renewed)?;
        Ok(())
    }
}

/// It couldn't start, at a moment.
#[derive(Clone, Copy)]
pub struct NotStarted {
    pub now: u64,
}

impl WorkChange for NotStarted {
    ghost use Rattle.wm_machine.specs.Ends.{not_started};

    ghost becomes = { λ c work. not_started c.now work };

    fn make(&self, alloc: Global, work: &mut Record) -> Result<(), AllocError> {
        *work = wm_lifecycle::not_started(alloc, work, self.now)?;
        Ok(())
    }
}

/// It tells this as its progress, where it is given.
#[derive(Clone, Copy)]
pub struct Telling<'a> {
    pub progress: &'a Option<Data>,
}

impl WorkChange for Telling<'_> {
    ghost use Rattle.wm_machine.specs.Turns.{telling};

    ghost becomes = { λ c work. telling c.progress.now work };

    fn make(&self, alloc: Global, work: &mut Record) -> Result<(), AllocError> {
        if let Some(progress) = self.progress {
            work.progress = progress.replica(alloc)?;
        }
        Ok(())
    }
}

/// It has succeeded at a moment, and gave this.
#[derive(Clone, Copy)]
pub struct Succeeded<'a> {
    pub now: u64,
    pub output: &'a Data,
}

impl WorkChange for Succeeded<'_> {
    ghost use Rattle.wm_machine.specs.Ends.{succeeded};

    ghost becomes = { λ c work. succeeded c.now c.output.now work };

    fn make(&self, alloc: Global, work: &mut Record) -> Result<(), AllocError> {
        work.output = self.output.replica(alloc)?;
        work.phase = Phase::Done(How::Succeeded);
        work.finished_at = self.now;
        work.progress = Data::empty();
        Ok(())
    }
}

/// It gave this.
#[derive(Clone, Copy)]
pub struct Giving<'a> {
    pub output: &'a Data,
}

impl WorkChange for Giving<'_> {
    ghost use Rattle.wm_machine.specs.Ends.{with_output};

    ghost becomes = { λ c work. with_output c.output.now work };

    fn make(&self, alloc: Global, work: &mut Record) -> Result<(), AllocError> {
        work.output = self.output.replica(alloc)?;
        Ok(())
    }
}
