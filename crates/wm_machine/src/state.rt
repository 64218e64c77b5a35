//! The state of the machine: records, runs, instances and what is set.
use crate::record::{Record, Shown};
use std::alloc::{AllocError, Global};
use uuid::Uuid;
use wm_collections::{Items, Replica, Text};
use wm_conditions::{Conditions, Constraints};
use wm_data::Data;
use wm_worker::Kind;

/// One attempt at a work, from its start to its end.
#[derive(Debug, Drop)]
pub struct Run {
    /// Its number, from 1 in the order of starts.
    pub run: u64,
    /// The number of the work.
    pub seq: u64,
    /// Which attempt of the work it is.
    pub attempt: u32,
    /// The merged input that it took.
    pub input: Data,
    /// The kind of the instance that it runs on.
    pub kind: Kind,
    /// The number of that instance.
    pub instance: u32,
    /// The constraints that it took.
    pub constraints: Constraints,
    /// Its turn, from 0.
    pub turn: u32,
    /// Whether its end still counts.
    pub current: bool,
    /// Whether what its work has for the next run was set anew since it began.
    pub renewed: bool,
}

/// One boxed worker, by its number.
#[derive(Debug, Drop)]
pub struct Instance {
    pub number: u32,
    pub class: Text,
    pub kind: Kind,
    /// Whether a run has it.
    pub out: bool,
    /// Whether its class was retired.
    pub retired: bool,
}

impl Replica for Instance {
    fn replica(&self, alloc: Global) -> Result<Instance, AllocError> {
        Ok(Instance {
            number: self.number,
            class: self.class.replica(alloc)?,
            kind: self.kind,
            out: self.out,
            retired: self.retired,
        })
    }
}

/// Which works are asked for, after `androidx.work.WorkQuery`: those that have one of each group
/// that isn't empty.
#[derive(Debug, Drop)]
pub struct WorkQuery {
    pub ids: Items<Uuid>,
    pub names: Items<Text>,
    pub states: Items<Shown>,
    pub tags: Items<Text>,
}

impl Replica for WorkQuery {
    fn replica(&self, alloc: Global) -> Result<WorkQuery, AllocError> {
        Ok(WorkQuery {
            ids: self.ids.copied(alloc)?,
            names: self.names.replica(alloc)?,
            states: self.states.copied(alloc)?,
            tags: self.tags.replica(alloc)?,
        })
    }
}

/// All that the machine knows at one moment.
#[derive(Debug, Drop)]
pub struct State {
    /// The records, in ascending number.
    pub works: Items<Record>,
    pub conditions: Conditions,
    /// The moment, in milliseconds.
    pub now: u64,
    /// The runs that haven't returned.
    pub runs: Items<Run>,
    /// The instances, numbered from 0 in order.
    pub instances: Items<Instance>,
    /// The number of the next work.
    pub next: u64,
    /// The number of the next run.
    pub next_run: u64,
    /// What each observer asks for, in order.
    pub observers: Items<WorkQuery>,
    /// Whether only summaries are written.
    pub hushed: bool,
}
