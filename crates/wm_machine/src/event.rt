//! The events of a log.
use crate::command::Command;
use crate::reply::Reply;
use std::alloc::{AllocError, Global};
use wm_collections::{Replica, Shared, Text};
use wm_data::Data;

/// Why work that was due couldn't start.
#[derive(Debug, Drop)]
pub enum Cause {
    /// No worker of its class is live.
    NoWorker,
    /// The merged inputs differ in type under this key.
    Conflict { key: Text },
    /// The merged input would have this size.
    TooLarge { size: u64 },
}

impl Replica for Cause {
    fn replica(&self, alloc: Global) -> Result<Cause, AllocError> {
        Ok(match self {
            Cause::NoWorker => Cause::NoWorker,
            Cause::Conflict { key } => Cause::Conflict {
                key: key.replica(alloc)?,
            },
            Cause::TooLarge { size } => Cause::TooLarge { size: *size },
        })
    }
}

/// How a run ended by its own report.
#[derive(Debug, Drop)]
pub enum End {
    Success(Data),
    Failure(Data),
    Retry,
}

/// One change of the state.
#[derive(Debug, Drop)]
pub enum Event {
    /// A line of the script was executed.
    Command {
        line: u32,
        /// In memory of its own, since it is large and most events have none.
        command: Shared<Command>,
        reply: Reply,
    },
    /// A run of a work began.
    Start {
        run: u64,
        seq: u64,
        instance: u32,
        input: Data,
    },
    /// A work that was due couldn't start.
    StartFailed {
        seq: u64,
        cause: Cause,
    },
    /// A run goes on.
    Turn {
        run: u64,
        progress: Option<Data>,
    },
    /// A run ended by its own report.
    Finish {
        run: u64,
        end: End,
    },
    /// A run used up its turns.
    TimedOut {
        run: u64,
    },
    /// A run that was stopped came back.
    Late {
        run: u64,
    },
}
