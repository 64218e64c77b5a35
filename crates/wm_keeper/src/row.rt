//! The row of a work, and a change of the rows that are kept.
ghost use Rattle.std.specs.Prelude.{◌↔◌, IsTrue};
ghost use Rattle.wm_keeper.specs.Keeper.{Ascends};

use std::alloc::{AllocError, Global};
use wm_collections::{Items, Replica, Text};

/// One stored work. Numbers and codes are as `docs/FORMATS.md`, "Rows", says.
#[derive(Drop, PartialEq, Eq)]
pub struct Row {
    /// The form of the row.
    pub version: i64,
    /// The number of the work, under which the row is stored.
    pub seq: i64,
    /// The sixteen bytes of the work's id.
    pub id: Items<u8>,
    /// The unique name that the work was enqueued under.
    pub name: Option<Text>,
    /// The name of the worker's class.
    pub class: Text,
    /// One-time or periodic.
    pub kind: i64,
    /// The period in milliseconds, 0 for one-time work.
    pub period: i64,
    /// The flex interval in milliseconds, 0 for one-time work.
    pub flex: i64,
    /// The initial delay in milliseconds.
    pub delay: i64,
    /// The backoff policy.
    pub policy: i64,
    /// The backoff delay in milliseconds.
    pub wait: i64,
    /// The input merger.
    pub merger: i64,
    /// The network constraint.
    pub network: i64,
    /// The other constraints, added up.
    pub flags: i64,
    /// The phase that the work is in.
    pub phase: i64,
    /// How often it was started.
    pub attempt: i64,
    /// The attempt that its backoff counts from, 0 where there is none.
    pub backoff_n: i64,
    /// How many periods of it have run.
    pub runs: i64,
    /// How often it was updated.
    pub generation: i64,
    /// The moment from which its delay counts.
    pub enqueued_at: i64,
    /// Its input, as the canonical text of Data.
    pub input: Text,
    /// Its output, likewise.
    pub output: Text,
    /// The numbers of its prerequisites.
    pub prior: Items<i64>,
    /// Its tags, ascending.
    pub tags: Items<Text>,
    /// The moment of its next run that takes the place of the one by its period, -1 where there is
    /// none.
    pub next_at: i64,
    /// How long it is kept once it has finished, in milliseconds.
    pub keep_for: i64,
    /// The moment at which it finished, 0 before that.
    pub finished_at: i64,
}

impl Replica for Row {
    fn replica(&self, alloc: Global) -> Result<Row, AllocError> {
        Ok(Row {
            version: self.version,
            seq: self.seq,
            id: self.id.copied(alloc)?,
            name: self.name.replica(alloc)?,
            class: self.class.replica(alloc)?,
            kind: self.kind,
            period: self.period,
            flex: self.flex,
            delay: self.delay,
            policy: self.policy,
            wait: self.wait,
            merger: self.merger,
            network: self.network,
            flags: self.flags,
            phase: self.phase,
            attempt: self.attempt,
            backoff_n: self.backoff_n,
            runs: self.runs,
            generation: self.generation,
            enqueued_at: self.enqueued_at,
            input: self.input.replica(alloc)?,
            output: self.output.replica(alloc)?,
            prior: self.prior.copied(alloc)?,
            tags: self.tags.replica(alloc)?,
            next_at: self.next_at,
            keep_for: self.keep_for,
            finished_at: self.finished_at,
        })
    }
}

/// One change of the rows that a keeper holds.
#[derive(Drop)]
pub enum Change {
    /// The row stands under its number from now on.
    Put(Row),
    /// No row stands under this number from now on.
    Remove(i64),
}

impl Replica for Change {
    fn replica(&self, alloc: Global) -> Result<Change, AllocError> {
        match self {
            Change::Put(row) => Ok(Change::Put(row.replica(alloc)?)),
            Change::Remove(seq) => Ok(Change::Remove(*seq)),
        }
    }
}

/// Whether the numbers of the rows rise strictly, as those of a keeper do.
pub fn do_ascend(rows: &[Row]) -> bool
    ensures { IsTrue result ↔ Ascends rows.now }
{
    rows.is_sorted_by(|row, next| row.seq < next.seq)
}
