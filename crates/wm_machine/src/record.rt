//! What is known of one work, with its phase and the state that is shown.
ghost use Rattle.std.specs.Prelude.{◌≡◌};
ghost use Rattle.wm_machine.specs.Closed.{is_open};
ghost use Rattle.wm_machine.specs.Due.{due_of, times_of};
ghost use Rattle.wm_machine.specs.First.{is_succeeded, is_waiting};
ghost use Rattle.wm_machine.specs.Pruned.{is_kept_enough};
ghost use Rattle.wm_machine.specs.Shown.{shown_in};
ghost use Rattle.wm_machine.specs.Valid.{IsRecord};

use std::alloc::{AllocError, Global};
use wm_collections::{Items, Replica, Text};
use wm_data::Data;
use wm_request::Request;
use wm_schedule::Times;

/// How a finished work ended.
#[derive(Clone, Copy, Debug, PartialEq, Eq)]
pub enum How {
    Succeeded,
    Failed,
    Cancelled,
}

/// The phase that a record is stored in.
#[derive(Clone, Copy, Debug, PartialEq, Eq)]
pub enum Phase {
    Waiting,
    Running,
    Done(How),
}

impl Phase {
    /// Whether the work isn't finished.
    pub fn is_open(self) -> bool
        ensures { result ≡ is_open self }
    {
        !matches!(self, Phase::Done(_))
    }

    /// Whether the work waits to be started.
    pub fn is_waiting(self) -> bool
        ensures { result ≡ is_waiting self }
    {
        matches!(self, Phase::Waiting)
    }

    /// Whether the work has succeeded.
    pub fn is_succeeded(self) -> bool
        ensures { result ≡ is_succeeded self }
    {
        matches!(self, Phase::Done(How::Succeeded))
    }

    /// The state shown of work in this phase, whose prerequisites have all succeeded or haven't.
    pub fn shown(self, all_met: bool) -> Shown
        ensures { result ≡ shown_in self all_met }
    {
        match self {
            Phase::Waiting if all_met => Shown::Enqueued,
            Phase::Waiting => Shown::Blocked,
            Phase::Running => Shown::Running,
            Phase::Done(How::Succeeded) => Shown::Succeeded,
            Phase::Done(How::Failed) => Shown::Failed,
            Phase::Done(How::Cancelled) => Shown::Cancelled,
        }
    }
}

/// The state that is shown of a work, after `androidx.work.WorkInfo.State`.
#[derive(Clone, Copy, Debug, PartialEq, Eq)]
pub enum Shown {
    Enqueued,
    Running,
    Succeeded,
    Failed,
    Blocked,
    Cancelled,
}

/// What is known of one work.
#[derive(Debug, Drop)]
pub struct Record {
    /// Its number, from 1 in the order of enqueueing.
    pub seq: u64,
    /// The unique name that it was enqueued under.
    pub name: Option<Text>,
    /// What was asked for.
    pub request: Request,
    /// The numbers of its prerequisites, in the order in which they were named.
    pub prior: Items<u64>,
    pub phase: Phase,
    /// How often it was started.
    pub attempt: u32,
    /// The attempt that its backoff counts from, 0 where there is none.
    pub backoff_n: u32,
    /// How many periods of it have run.
    pub runs: u32,
    /// How often it was updated.
    pub generation: u64,
    /// The moment from which its delay counts.
    pub enqueued_at: u64,
    /// The moment from which its next run may start whatever its period says, where there is one.
    pub override_at: Option<u64>,
    /// The moment at which it finished, in milliseconds; 0 before that.
    pub finished_at: u64,
    /// What it gave in the end.
    pub output: Data,
    /// What it told while it runs.
    pub progress: Data,
}

impl Record {
    /// The moment from which on the work may start, in milliseconds.
    #[tactic(auto, unfolding(crate::specs::Due::due_of))]
    pub fn due(&self) -> u64
        requires { IsRecord self.now }
        ensures { result ≡ due_of self.now }
    {
        wm_schedule::due(&self.times())
    }

    /// Whether the keeping time of the finished work has passed at this moment, in milliseconds.
    #[tactic(auto, unfolding(crate::specs::Pruned::is_kept_enough))]
    pub fn is_kept_enough(&self, now: u64) -> bool
        ensures { result ≡ is_kept_enough now self.now }
    {
        now.saturating_sub(self.finished_at) >= self.request.keep()
    }

    /// What that moment depends on.
    fn times(&self) -> Times
        ensures { result ≡ times_of self.now }
    {
        Times {
            enqueued_at: self.enqueued_at,
            initial_delay: self.request.initial_delay(),
            backoff: self.request.backoff(),
            backoff_n: self.backoff_n,
            period: self.request.period(),
            runs: self.runs,
            override_at: self.override_at,
        }
    }
}

impl Replica for Record {
    fn replica(&self, alloc: Global) -> Result<Record, AllocError> {
        Ok(Record {
            seq: self.seq,
            name: self.name.replica(alloc)?,
            request: self.request.replica(alloc)?,
            prior: self.prior.copied(alloc)?,
            phase: self.phase,
            attempt: self.attempt,
            backoff_n: self.backoff_n,
            runs: self.runs,
            generation: self.generation,
            enqueued_at: self.enqueued_at,
            override_at: self.override_at,
            finished_at: self.finished_at,
            output: self.output.replica(alloc)?,
            progress: self.progress.replica(alloc)?,
        })
    }
}
