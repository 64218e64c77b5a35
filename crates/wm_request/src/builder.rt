//! A request that is put together, and the limits of its parts.
ghost use Rattle.std.specs.Prelude.{◌≡◌, ◌^◌, ◌<◌, ◌≤◌, true, insert, is_some, length, Ok, IfOk, IfErr, MatchOption, OnOk, OnErr, string_bytes};
ghost use Rattle.wm_request.specs.Building.{backoff_of, built_of, has_long_delay, has_long_period, is_long, is_short, one_time_of, periodic_of, with_tag, IsFaultOf};
ghost use Rattle.wm_request.specs.Requests.{IsShortText, RequestFields};
ghost use Rattle.wm_request.specs.declared.request.NextRun.TheVariants.{At, Clear};

use crate::fault::RequestFault;
use crate::request::{NextRun, Request, Terms};
use std::alloc::{AllocError, Global};
use std::cmp::Ordering;
use std::marker::Model;
use uuid::Uuid;
use wm_collections::{Items, Shared, Text};
use wm_conditions::Constraints;
use wm_data::{Data, Merger};
use wm_schedule::{Backoff, BackoffPolicy, Period, clamp_backoff, clamp_period};

/// The most bytes that a class, a tag or a unique name has.
pub const MAX_TEXT_BYTES: usize = 200;

/// The most tags that a request has.
pub const MAX_TAGS: usize = 32;

/// The longest initial delay, period and keeping time, in milliseconds.
pub const MAX_DELAY: u64 = 315_360_000_000;

/// A request that is being put together, after `androidx.work.WorkRequest.Builder`. A contract
/// sees it as the record of the fields that it would have.
#[derive(Debug, Drop)]
pub struct Builder {
    id: Uuid,
    class: Text,
    input: Data,
    merger: Merger,
    tags: Vec<Text>,
    constraints: Constraints,
    backoff: Backoff,
    initial_delay: u64,
    period: Option<Period>,
    keep: u64,
    next: NextRun,
}

impl Model for Builder {
    ghost use Rattle.wm_request.specs.Building.{IsBuilding};
    ghost use Rattle.wm_request.specs.Requests.{RequestFields};

    ghost Value = { RequestFields };

    ghost view = { λ b. record {
      id = b.id;
      class = b.class;
      input = b.input;
      merger = b.merger;
      tags = b.tags.items;
      constraints = b.constraints;
      backoff = b.backoff;
      initial_delay = b.initial_delay;
      period = b.period;
      keep = b.keep;
      next = b.next;
    } };

    ghost invariant = { λ b. IsBuilding b.tags.items b.backoff b.period b.next };
}

impl Builder {
    /// One-time work of this id and class: without input, tag, constraint, delay or keeping time, with
    /// the merger Overwriting, and with exponential backoff from 30,000 ms. It takes no memory.
    pub fn one_time(alloc: Global, id: Uuid, class: String) -> Builder
        ensures { result ≡ one_time_of id (string_bytes class) }
    {
        Builder {
            id,
            class: Text::from_string(class),
            input: Data::empty(),
            merger: Merger::Overwriting,
            tags: Vec::new(alloc),
            constraints: Constraints::NONE,
            backoff: Backoff::DEFAULT,
            initial_delay: 0,
            period: None,
            keep: 0,
            next: NextRun::Leave,
        }
    }

    /// The same that repeats: its period and flex interval, in milliseconds, are raised to their
    /// least, and the flex interval is lowered to the period, which it is where there is none. It
    /// takes no memory.
    pub fn periodic(
        alloc: Global,
        id: Uuid,
        class: String,
        period: u64,
        flex: Option<u64>,
    ) -> Builder
        ensures { result ≡ periodic_of id (string_bytes class) period flex }
    {
        let mut builder = Builder::one_time(alloc, id, class);
        builder.period = Some(clamp_period(period, flex));
        builder
    }

    /// Sets the work's own input.
    pub fn input(&mut self, input: Data)
        ensures { self.new ≡ record self.old { input = input } }
    {
        self.input = input;
    }

    /// Sets how its input and its prerequisites' outputs become one.
    pub fn merger(&mut self, merger: Merger)
        ensures { self.new ≡ record self.old { merger = merger } }
    {
        self.merger = merger;
    }

    /// Sets what has to hold for it to run.
    pub fn constraints(&mut self, constraints: Constraints)
        ensures { self.new ≡ record self.old { constraints = constraints } }
    {
        self.constraints = constraints;
    }

    /// Sets how long it waits after a retry: the delay, in milliseconds, is raised to 10,000 or
    /// lowered to 18,000,000.
    pub fn backoff(&mut self, policy: BackoffPolicy, delay: u64)
        ensures { self.new ≡ record self.old { backoff = backoff_of policy delay } }
    {
        self.backoff = Backoff {
            policy,
            delay: clamp_backoff(delay),
        };
    }

    /// Sets how long it waits at first, in milliseconds.
    pub fn initial_delay(&mut self, delay: u64)
        ensures { self.new ≡ record self.old { initial_delay = delay } }
    {
        self.initial_delay = delay;
    }

    /// Sets how long its record is kept once the work has finished, in milliseconds. It takes no memory.
    pub fn keep(&mut self, keep: u64)
        ensures { self.new ≡ record self.old { keep = keep } }
    {
        self.keep = keep;
    }

    /// Asks that the next run may start from this moment on, in milliseconds, whatever the period says.
    /// It takes no memory.
    pub fn next_at(&mut self, at: u64)
        requires periodic { is_some self.old.period ≡ true }
        requires moment { at < 2 ^ 53 }
        ensures { self.new ≡ record self.old { next = At at } }
    {
        self.next = NextRun::At(at);
    }

    /// Asks that the next run may start as the period says. It takes no memory.
    pub fn clear_next(&mut self)
        requires { is_some self.old.period ≡ true }
        ensures { self.new ≡ record self.old { next = Clear } }
    {
        self.next = NextRun::Clear;
    }

    /// Adds a tag of 1 to 200 bytes. One that is there changes nothing. Where memory is refused, the
    /// builder is as it was.
    pub fn tag(&mut self, tag: String) -> Result<(), AllocError>
        requires { IsShortText (string_bytes tag) }
        ensures ok { OnOk result
            (self.new ≡ record self.old { tags = with_tag (string_bytes tag) self.old.tags }) }
        ensures err { OnErr result (self.new ≡ self.old) }
    {
        insert_tag(&mut self.tags, Text::from_string(tag))
    }

    /// The request. NoClass where the class is empty or has more than 200 bytes, else TooManyTags
    /// where it has more than 32 tags, else DelayTooLong where the initial delay, the period or the
    /// keeping time is above 315,360,000,000 ms.
    pub fn build(self) -> Result<Request, RequestFault>
        ensures ok { IfOk result (λ request. built_of self ≡ Ok request) }
        ensures err { IfErr result (IsFaultOf (built_of self)) }
    {
        if !is_short(self.class.as_str()) {
            return Err(RequestFault::NoClass);
        }
        if self.tags.len() > MAX_TAGS {
            return Err(RequestFault::TooManyTags);
        }
        if has_long_delay(self.initial_delay, self.period, self.keep) {
            return Err(RequestFault::DelayTooLong);
        }
        let alloc = *self.tags.allocator();
        let terms = Terms {
            class: self.class,
            input: self.input,
            merger: self.merger,
            tags: Items::from_vec(self.tags),
            constraints: self.constraints,
            backoff: self.backoff,
            initial_delay: self.initial_delay,
            period: self.period,
        };
        Ok(Request {
            id: self.id,
            keep: self.keep,
            next: self.next,
            terms: Shared::new(alloc, terms).map_err(AllocError::from)?,
        })
    }
}

/// Puts a tag at its place among ascending tags, where it isn't there.
fn insert_tag(tags: &mut Vec<Text>, tag: Text) -> Result<(), AllocError>
    ensures ok { OnOk result (tags.new.items ≡ with_tag tag tags.old.items) }
    ensures err { OnErr result (tags.new.items ≡ tags.old.items) }
{
    match place_of(tags.as_slice(), tag.as_str()) {
        Some(index) => Ok(tags.insert(index, tag)?),
        None => Ok(()),
    }
}

/// Where a tag goes among ascending tags; none where it is there.
fn place_of(tags: &[Text], tag: &str) -> Option<usize>
    ensures { MatchOption result (with_tag tag.now tags.now ≡ tags.now)
        (λ index. (index ≤ length tags.now) × (with_tag tag.now tags.now ≡ insert tags.now index tag.now)) }
{
    let mut index = 0;
    'places: while index < tags.len() {
        match tag.cmp(tags[index].as_str()) {
            Ordering::Less => return Some(index),
            Ordering::Equal => return None,
            Ordering::Greater => index += 1,
        }
    }
    Some(index)
}

fn is_short(text: &str) -> bool
    ensures { result ≡ is_short text.now }
{
    !text.is_empty() && text.len() <= MAX_TEXT_BYTES
}

/// Whether an initial delay, a period or a keeping time is above the longest.
fn has_long_delay(initial_delay: u64, period: Option<Period>, keep: u64) -> bool
    ensures { (asked : RequestFields) → asked.initial_delay ≡ initial_delay → asked.period ≡ period → asked.keep ≡ keep
        → result ≡ has_long_delay asked }
{
    initial_delay > MAX_DELAY || keep > MAX_DELAY || has_long_period(period)
}

/// Whether a period, where there is one, is above the longest.
fn has_long_period(period: Option<Period>) -> bool
    ensures { result ≡ has_long_period period }
{
    period.is_some_and(|period| period.period > MAX_DELAY)
}
