//! A request, whose type keeps its limits.
ghost use Rattle.std.specs.Prelude.{◌≡◌, IfSome};
ghost use Rattle.wm_request.specs.Batches.{IsBatch};
ghost use Rattle.wm_request.specs.Requests.{of_record, AreTags, IsNextRun, IsRequest, IsShortText, IsWithin};
ghost use Rattle.wm_schedule.specs.Clamped.{IsBackoffDelay, IsPeriod};
ghost use Rattle.wm_schedule.specs.Moments.{IsDelay};

use std::alloc::{AllocError, Global};
use std::marker::Model;
use uuid::Uuid;
use wm_collections::{Items, Replica, Shared, Text};
use wm_conditions::Constraints;
use wm_data::{Data, Merger};
use wm_schedule::{Backoff, Period};

/// What a request asks of the next run of periodic work, after the next schedule time override of
/// `androidx.work.PeriodicWorkRequest.Builder`.
#[derive(Clone, Copy, Debug, PartialEq, Eq)]
pub enum NextRun {
    /// What is known of it stays.
    Leave,
    /// It may start from this moment on, whatever the period says, in milliseconds.
    At(u64),
    /// It may start as the period says.
    Clear,
}

/// What is asked for, after `androidx.work.WorkRequest`. Its type keeps the limits of a request: of
/// its class, its tags, its delays and the moment of its next run. A [`Builder`](crate::Builder)
/// makes it. A contract sees it as the record of its fields. Its copies share its terms.
#[derive(Debug, Drop)]
pub struct Request {
    pub(crate) id: Uuid,
    pub(crate) keep: u64,
    pub(crate) next: NextRun,
    pub(crate) terms: Shared<Terms>,
}

/// What a request asks for, whatever its id is, how long its record is kept, and when the next run is.
#[derive(Debug, Drop)]
pub struct Terms {
    pub(crate) class: Text,
    pub(crate) input: Data,
    pub(crate) merger: Merger,
    pub(crate) tags: Items<Text>,
    pub(crate) constraints: Constraints,
    pub(crate) backoff: Backoff,
    pub(crate) initial_delay: u64,
    pub(crate) period: Option<Period>,
}

impl Model for Request {
    ghost use Rattle.wm_request.specs.Requests.{RequestFields, IsWithin};

    ghost Value = { RequestFields };

    ghost view = { λ r. record {
      id = r.id;
      class = r.terms.class;
      input = r.terms.input;
      merger = r.terms.merger;
      tags = r.terms.tags;
      constraints = r.terms.constraints;
      backoff = r.terms.backoff;
      initial_delay = r.terms.initial_delay;
      period = r.terms.period;
      keep = r.keep;
      next = r.next;
    } };

    ghost invariant = { λ r. IsWithin r.terms.class r.terms.tags r.terms.backoff r.terms.initial_delay r.terms.period r.keep r.next };
}

impl Request {
    /// The id by which callers name the work.
    pub fn id(&self) -> Uuid
        ensures { result ≡ self.now.id }
    {
        self.id
    }

    /// The same request under another id, with another keeping time, in milliseconds, and with nothing
    /// to ask of the next run: as the record of a work has it. It takes no memory.
    pub fn of_record(mut self, id: Uuid, keep: u64) -> Request
        requires { IsDelay keep }
        ensures { result ≡ of_record id keep self }
    {
        self.id = id;
        self.keep = keep;
        self.next = NextRun::Leave;
        self
    }

    /// The class of workers that run it, of 1 to 200 bytes.
    pub fn class(&self) -> &Text
        ensures class { result.now ≡ self.now.class }
        ensures short { IsShortText self.now.class }
    {
        &self.terms.value().class
    }

    /// Its own input.
    pub fn input(&self) -> &Data
        ensures { result.now ≡ self.now.input }
    {
        &self.terms.value().input
    }

    /// How its input and its prerequisites' outputs become one.
    pub fn merger(&self) -> Merger
        ensures { result ≡ self.now.merger }
    {
        self.terms.value().merger
    }

    /// Its tags, ascending and different, at most 32 of 1 to 200 bytes each.
    pub fn tags(&self) -> &Items<Text>
        ensures tags { result.now ≡ self.now.tags }
        ensures within { AreTags self.now.tags }
    {
        &self.terms.value().tags
    }

    /// What has to hold for it to run.
    pub fn constraints(&self) -> Constraints
        ensures { result ≡ self.now.constraints }
    {
        self.terms.value().constraints
    }

    /// How long it waits after a retry. Its delay is from 10,000 to 18,000,000 ms.
    pub fn backoff(&self) -> Backoff
        ensures backoff { result ≡ self.now.backoff }
        ensures within { IsBackoffDelay self.now.backoff.delay }
    {
        self.terms.value().backoff
    }

    /// How long it waits at first, in milliseconds, at most 315,360,000,000.
    pub fn initial_delay(&self) -> u64
        ensures delay { result ≡ self.now.initial_delay }
        ensures within { IsDelay self.now.initial_delay }
    {
        self.terms.value().initial_delay
    }

    /// How often it repeats; none for one-time work. The period is at most 315,360,000,000 ms.
    pub fn period(&self) -> Option<Period>
        ensures period { result ≡ self.now.period }
        ensures within { IfSome self.now.period (λ period. IsPeriod period × IsDelay period.period) }
    {
        self.terms.value().period
    }

    /// How long its record is kept once the work has finished, in milliseconds, at most
    /// 315,360,000,000.
    pub fn keep(&self) -> u64
        ensures keep { result ≡ self.now.keep }
        ensures within { IsDelay self.now.keep }
    {
        self.keep
    }

    /// What it asks of the next run. Only periodic work asks anything, and for a moment of at most
    /// 2^53 - 1.
    pub fn next(&self) -> NextRun
        ensures next { result ≡ self.now.next }
        ensures within { IsNextRun self.now.period self.now.next }
    {
        self.next
    }

    /// Shows that it is a request within its limits, as its types keep it: for a caller whose next call
    /// asks for that.
    pub fn show_limits(&self)
        ensures { IsRequest self.now }
    {
        let id = self.id();
        let _bytes = id.as_bytes();
        let _size = self.input().size();
        let _class = self.class();
        let _tags = self.tags();
        let _backoff = self.backoff();
        let _delay = self.initial_delay();
        let _period = self.period();
        let _keep = self.keep();
        let _next = self.next();
    }
}

impl Replica for Request {
    fn replica(&self, alloc: Global) -> Result<Request, AllocError> {
        Ok(Request {
            id: self.id,
            keep: self.keep,
            next: self.next,
            terms: self.terms.replica(alloc)?,
        })
    }
}

/// A work of a batch: its request, and the ids of its prerequisites.
#[derive(Debug, Drop)]
pub struct Node {
    pub request: Request,
    pub after: Items<Uuid>,
}

/// Works that are enqueued together. Its type keeps that there is one at least, that their ids
/// differ, that none names an id twice or a periodic work of the batch, and that a periodic work
/// names none. A contract sees it as the record of its works.
#[derive(Debug, Drop)]
pub struct Batch {
    works: Items<Node>,
}

impl Model for Batch {
    ghost use Rattle.wm_request.specs.Batches.{BatchFields, IsBatch};

    ghost Value = { BatchFields };

    ghost view = { λ b. record { works = b.works } };

    ghost invariant = { λ b. IsBatch b.works };
}

impl Batch {
    /// The batch of these works, which takes no memory.
    pub fn new(works: Items<Node>) -> Batch
        requires { IsBatch works }
        ensures { result ≡ record { works = works } }
    {
        Batch { works }
    }

    /// Its works, in the order in which they are placed.
    pub fn works(&self) -> &Items<Node>
        ensures works { result.now ≡ self.now.works }
        ensures batch { IsBatch self.now.works }
    {
        &self.works
    }

    /// Its works, taken out of it.
    pub fn into_works(self) -> Items<Node>
        ensures works { result ≡ self.works }
        ensures batch { IsBatch result }
    {
        self.works
    }
}
