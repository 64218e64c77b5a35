//! What a line asks for, and what may be wrong with it.
use crate::state::WorkQuery;
use std::alloc::{AllocError, Global};
use uuid::Uuid;
use wm_collections::{Replica, Text};
use wm_conditions::Conditions;
use wm_request::{Batch, Request};

/// What an enqueue does where its unique name is taken, after `androidx.work.ExistingWorkPolicy`
/// and `ExistingPeriodicWorkPolicy`.
#[derive(Clone, Copy, Debug, PartialEq, Eq)]
pub enum Policy {
    Keep,
    Replace,
    Append,
    AppendOrReplace,
    CancelAndReenqueue,
    Update,
}

/// What is wrong with a line of a script.
#[derive(Debug, Drop)]
pub enum LineFault {
    /// No command of the grammar.
    Bad,
    EmptyKey,
    BadData { key: Text },
    TooLarge { size: u64 },
    NoClass,
    TooManyTags,
    DelayTooLong,
    IdTwice { id: Uuid },
    PeriodicInChain { id: Uuid },
}

impl Replica for LineFault {
    fn replica(&self, alloc: Global) -> Result<LineFault, AllocError> {
        Ok(match self {
            LineFault::Bad => LineFault::Bad,
            LineFault::EmptyKey => LineFault::EmptyKey,
            LineFault::BadData { key } => LineFault::BadData {
                key: key.replica(alloc)?,
            },
            LineFault::TooLarge { size } => LineFault::TooLarge { size: *size },
            LineFault::NoClass => LineFault::NoClass,
            LineFault::TooManyTags => LineFault::TooManyTags,
            LineFault::DelayTooLong => LineFault::DelayTooLong,
            LineFault::IdTwice { id } => LineFault::IdTwice { id: *id },
            LineFault::PeriodicInChain { id } => LineFault::PeriodicInChain { id: *id },
        })
    }
}

/// Which works a cancel is for.
#[derive(Debug, Drop)]
pub enum Target {
    Id(Uuid),
    Tag(Text),
    Name(Text),
    All,
}

/// A unique name, and what an enqueue does where it is taken.
#[derive(Debug, Drop)]
pub struct UniqueName {
    pub name: Text,
    pub policy: Policy,
}

/// What a line of a script asks for.
#[derive(Debug, Drop)]
pub enum Command {
    Enqueue {
        named: Option<UniqueName>,
        batch: Batch,
    },
    Cancel(Target),
    Update(Request),
    Moment(u64),
    Conditions(Conditions),
    /// Finished works are removed that nothing needs, and whose keeping time has passed; with `force`
    /// that time isn't looked at.
    Prune {
        force: bool,
    },
    Query(WorkQuery),
    Observe(WorkQuery),
    Retire(Text),
    Settle,
    Hush,
    Summary,
    /// The line isn't in the grammar.
    Faulty(LineFault),
}
