//! What is answered to a command, with what is told of works.
ghost use Rattle.std.specs.Prelude.{◌≡◌, ◌+◌, ◌<◌, if◌then◌else◌};
ghost use Rattle.wm_machine.specs.Queried.{is_state};

use crate::command::LineFault;
use crate::record::Shown;
use std::alloc::{AllocError, Global};
use uuid::Uuid;
use wm_collections::{Items, Replica, Text};
use wm_data::Data;

/// What an update did, after `androidx.work.WorkManager.UpdateResult`.
#[derive(Clone, Copy, Debug, PartialEq, Eq)]
pub enum Applied {
    NotApplied,
    Immediately,
    ForNextRun,
}

/// What is told of one work, after `androidx.work.WorkInfo`.
#[derive(Debug, Drop, PartialEq, Eq)]
pub struct WorkInfo {
    pub seq: u64,
    pub id: Uuid,
    pub name: Option<Text>,
    pub state: Shown,
    pub attempt: u32,
    /// When it is due, where it is enqueued.
    pub due: Option<u64>,
    pub generation: u64,
    pub output: Data,
    pub progress: Data,
    pub tags: Items<Text>,
}

impl Replica for WorkInfo {
    fn replica(&self, alloc: Global) -> Result<WorkInfo, AllocError> {
        Ok(WorkInfo {
            seq: self.seq,
            id: self.id,
            name: self.name.replica(alloc)?,
            state: self.state,
            attempt: self.attempt,
            due: self.due,
            generation: self.generation,
            output: self.output.replica(alloc)?,
            progress: self.progress.replica(alloc)?,
            tags: self.tags.replica(alloc)?,
        })
    }
}

/// How many works are in each shown state, and the sum of their attempts. Periodic work counts its
/// attempts anew for each period.
#[derive(Clone, Copy, Debug, PartialEq, Eq)]
pub struct Counts {
    pub enqueued: u64,
    pub running: u64,
    pub succeeded: u64,
    pub failed: u64,
    pub blocked: u64,
    pub cancelled: u64,
    pub attempts: u64,
}

impl Counts {
    /// The counts of no works.
    pub fn none() -> Counts
        ensures { result ≡ record {
          enqueued = 0;
          running = 0;
          succeeded = 0;
          failed = 0;
          blocked = 0;
          cancelled = 0;
          attempts = 0;
        } }
    {
        Counts {
            enqueued: 0,
            running: 0,
            succeeded: 0,
            failed: 0,
            blocked: 0,
            cancelled: 0,
            attempts: 0,
        }
    }

    /// Counts a work in this shown state, after fewer than 100,000 others; not its attempts.
    pub fn count(&mut self, state: Shown)
        requires few { self.old.enqueued + self.old.running + self.old.succeeded + self.old.failed
            + self.old.blocked + self.old.cancelled < 100000 }
        ensures enqueued { self.new.enqueued ≡ self.old.enqueued
            + (if is_state Shown.Enqueued state then 1 else 0) }
        ensures running { self.new.running ≡ self.old.running
            + (if is_state Shown.Running state then 1 else 0) }
        ensures succeeded { self.new.succeeded ≡ self.old.succeeded
            + (if is_state Shown.Succeeded state then 1 else 0) }
        ensures failed { self.new.failed ≡ self.old.failed
            + (if is_state Shown.Failed state then 1 else 0) }
        ensures blocked { self.new.blocked ≡ self.old.blocked
            + (if is_state Shown.Blocked state then 1 else 0) }
        ensures cancelled { self.new.cancelled ≡ self.old.cancelled
            + (if is_state Shown.Cancelled state then 1 else 0) }
        ensures attempts { self.new.attempts ≡ self.old.attempts }
    {
        match state {
            Shown::Enqueued => self.enqueued += 1,
            Shown::Running => self.running += 1,
            Shown::Succeeded => self.succeeded += 1,
            Shown::Failed => self.failed += 1,
            Shown::Blocked => self.blocked += 1,
            Shown::Cancelled => self.cancelled += 1,
        }
    }
}

/// Why a command was refused, with the value that shows it.
#[derive(Debug, Drop)]
pub enum Refusal {
    Line(LineFault),
    MomentBack { now: u64 },
    NoSuchWork { id: Uuid },
    KindMismatch { id: Uuid },
    TooManyWorks { count: u64 },
    NumbersSpent { next: u64 },
    IdInUse { id: Uuid },
    NoSuchPrerequisite { id: Uuid },
    PeriodicInChain { id: Uuid },
    TooManyPrerequisites { id: Uuid },
    TooManyObservers { count: u64 },
    NoSuchClass,
}

impl Replica for Refusal {
    fn replica(&self, alloc: Global) -> Result<Refusal, AllocError> {
        Ok(match self {
            Refusal::Line(fault) => Refusal::Line(fault.replica(alloc)?),
            Refusal::MomentBack { now } => Refusal::MomentBack { now: *now },
            Refusal::NoSuchWork { id } => Refusal::NoSuchWork { id: *id },
            Refusal::KindMismatch { id } => Refusal::KindMismatch { id: *id },
            Refusal::TooManyWorks { count } => Refusal::TooManyWorks { count: *count },
            Refusal::NumbersSpent { next } => Refusal::NumbersSpent { next: *next },
            Refusal::IdInUse { id } => Refusal::IdInUse { id: *id },
            Refusal::NoSuchPrerequisite { id } => Refusal::NoSuchPrerequisite { id: *id },
            Refusal::PeriodicInChain { id } => Refusal::PeriodicInChain { id: *id },
            Refusal::TooManyPrerequisites { id } => Refusal::TooManyPrerequisites { id: *id },
            Refusal::TooManyObservers { count } => Refusal::TooManyObservers { count: *count },
            Refusal::NoSuchClass => Refusal::NoSuchClass,
        })
    }
}

/// What is answered to a command.
#[derive(Debug, Drop)]
pub enum Reply {
    /// The numbers of the new works.
    Enqueued(Items<u64>),
    Kept,
    Updated {
        result: Applied,
        generation: u64,
    },
    /// How many works became cancelled.
    Cancelled(u64),
    Moment,
    /// How many runs the new conditions stopped.
    Conditions {
        stopped: u64,
    },
    /// How many records were removed.
    Pruned(u64),
    Query(Items<WorkInfo>),
    Observing {
        observer: u32,
        works: Items<WorkInfo>,
    },
    /// How many idle instances were dropped.
    Retired(u32),
    Settled,
    Hushed,
    Summary(Counts),
    Refused(Refusal),
}

impl Replica for Reply {
    fn replica(&self, alloc: Global) -> Result<Reply, AllocError> {
        Ok(match self {
            Reply::Enqueued(works) => Reply::Enqueued(works.replica(alloc)?),
            Reply::Kept => Reply::Kept,
            Reply::Updated { result, generation } => Reply::Updated {
                result: *result,
                generation: *generation,
            },
            Reply::Cancelled(count) => Reply::Cancelled(*count),
            Reply::Moment => Reply::Moment,
            Reply::Conditions { stopped } => Reply::Conditions { stopped: *stopped },
            Reply::Pruned(count) => Reply::Pruned(*count),
            Reply::Query(works) => Reply::Query(works.replica(alloc)?),
            Reply::Observing { observer, works } => Reply::Observing {
                observer: *observer,
                works: works.replica(alloc)?,
            },
            Reply::Retired(count) => Reply::Retired(*count),
            Reply::Settled => Reply::Settled,
            Reply::Hushed => Reply::Hushed,
            Reply::Summary(counts) => Reply::Summary(*counts),
            Reply::Refused(refusal) => Reply::Refused(refusal.replica(alloc)?),
        })
    }
}
