//! The record of a row.
ghost use Rattle.std.specs.Prelude.{◌≡◌, [], IfErr, IfOk, IfSome, OnOk, Ok, ok_or, true};
ghost use Rattle.wm_request.specs.Building.{one_time_of};
ghost use Rattle.wm_rows.specs.Fields.{are_tags};
ghost use Rattle.wm_rows.specs.Grammar.{asked_of, read_row, request_in, standing_in, terms_in, AreTerms};
ghost use Rattle.wm_rows.specs.Sound.{IsFaultOf};
ghost use Rattle.wm_schedule.specs.Clamped.{IsPeriod};

use crate::fault::RowFault;
use crate::fields::{
    Form, GREATEST, constraints_in, form_in, last_finish, least_attempt, merger_in, most_keep,
    most_runs, number_in, override_in, period_in, phase_in, policy_in, prior_in,
};
use crate::texts::{are_tags, data_in, id_in, is_short, name_in, output_in};
use std::alloc::{AllocError, Global};
use uuid::Uuid;
use wm_collections::{Replica, Text};
use wm_conditions::Constraints;
use wm_data::{Data, Merger};
use wm_keeper::Row;
use wm_machine::{Phase, Record};
use wm_request::{Builder, MAX_DELAY, Request, RequestFault};
use wm_schedule::{Backoff, Period};

/// The least and the greatest backoff delay, in milliseconds.
const LEAST_WAIT: u64 = 10_000;

const MOST_WAIT: u64 = 18_000_000;

/// How often work was started at most.
const MOST_ATTEMPT: u64 = 1_000_000;

/// The plain values of what was asked for.
#[derive(Clone, Copy)]
pub(crate) struct Terms {
    pub(crate) merger: Merger,
    pub(crate) constraints: Constraints,
    pub(crate) backoff: Backoff,
    pub(crate) initial_delay: u64,
    pub(crate) period: Option<Period>,
    pub(crate) keep: u64,
}

/// How far work has come.
#[derive(Clone, Copy)]
pub(crate) struct Standing {
    pub(crate) seq: u64,
    pub(crate) phase: Phase,
    pub(crate) attempt: u32,
    pub(crate) backoff_n: u32,
    pub(crate) runs: u32,
    pub(crate) generation: u64,
    pub(crate) enqueued_at: u64,
    pub(crate) override_at: Option<u64>,
    pub(crate) finished_at: u64,
}

/// The record whose row this is. It has told nothing: progress isn't stored.
///
/// `BadRow` with the row's number where it isn't in the grammar.
pub fn from_row(alloc: Global, row: &Row) -> Result<Record, RowFault>
    ensures ok { IfOk result (λ work. read_row row.now ≡ Some work) }
    ensures err { IfErr result (IsFaultOf (ok_or (read_row row.now) (RowFault.BadRow row.now.seq))) }
{
    match read_row(alloc, row)? {
        Some(work) => Ok(work),
        None => Err(RowFault::BadRow { seq: row.seq }),
    }
}

/// The record whose row this is, where it is in the grammar.
#[tactic(auto, unfolding(crate::specs::Grammar::read_row))]
fn read_row(alloc: Global, row: &Row) -> Result<Option<Record>, AllocError>
    ensures { IfOk result (λ read. read ≡ read_row row.now) }
{
    let Some(form) = form_in(row.version) else {
        return Ok(None);
    };
    let Some(terms) = terms_in(form, row) else {
        return Ok(None);
    };
    let Some(standing) = standing_in(form, &terms, row) else {
        return Ok(None);
    };
    let Some(name) = name_in(alloc, &row.name)? else {
        return Ok(None);
    };
    let Some(prior) = prior_in(alloc, terms.period, row.prior.as_slice())? else {
        return Ok(None);
    };
    let Some(output) = output_in(alloc, standing.phase, &row.output)? else {
        return Ok(None);
    };
    let Some(request) = request_in(alloc, &terms, row)? else {
        return Ok(None);
    };
    Ok(Some(Record {
        seq: standing.seq,
        name,
        request,
        prior,
        phase: standing.phase,
        attempt: standing.attempt,
        backoff_n: standing.backoff_n,
        runs: standing.runs,
        generation: standing.generation,
        enqueued_at: standing.enqueued_at,
        override_at: standing.override_at,
        finished_at: standing.finished_at,
        output,
        progress: Data::empty(),
    }))
}

/// The plain values of what was asked for.
#[tactic(auto, unfolding(crate::specs::Grammar::terms_in))]
fn terms_in(form: Form, row: &Row) -> Option<Terms>
    ensures terms { result ≡ terms_in form row.now }
    ensures within { IfSome result AreTerms }
{
    let period = period_in(row.kind, row.period, row.flex)?;
    let initial_delay = number_in(0, MAX_DELAY, row.delay)?;
    let policy = policy_in(row.policy)?;
    let delay = number_in(LEAST_WAIT, MOST_WAIT, row.wait)?;
    let merger = merger_in(row.merger)?;
    let constraints = constraints_in(row.network, row.flags)?;
    let keep = number_in(0, most_keep(form), row.keep_for)?;
    let backoff = Backoff { policy, delay };
    Some(Terms {
        merger,
        constraints,
        backoff,
        initial_delay,
        period,
        keep,
    })
}

/// How far work of these terms has come.
#[tactic(auto, unfolding(crate::specs::Grammar::standing_in))]
fn standing_in(form: Form, terms: &Terms, row: &Row) -> Option<Standing>
    ensures { result ≡ standing_in form terms.now row.now }
{
    let seq = number_in(1, GREATEST, row.seq)?;
    let phase = phase_in(terms.period, row.phase)?;
    let attempt = number_in(least_attempt(phase), MOST_ATTEMPT, row.attempt)?;
    let backoff_n = number_in(0, attempt, row.backoff_n)?;
    let runs = number_in(0, most_runs(terms.period), row.runs)?;
    let generation = number_in(0, GREATEST, row.generation)?;
    let enqueued_at = number_in(0, GREATEST, row.enqueued_at)?;
    let override_at = override_in(form, terms.period, row.next_at)?;
    let finished_at = number_in(0, last_finish(form, phase), row.finished_at)?;
    Some(Standing {
        seq,
        phase,
        attempt: attempt as u32,
        backoff_n: backoff_n as u32,
        runs: runs as u32,
        generation,
        enqueued_at,
        override_at,
        finished_at,
    })
}

/// A request of these terms.
#[tactic(auto, unfolding(crate::specs::Grammar::request_in))]
fn request_in(alloc: Global, terms: &Terms, row: &Row) -> Result<Option<Request>, AllocError>
    requires { AreTerms terms.now }
    ensures { IfOk result (λ request. request ≡ request_in terms.now row.now) }
{
    let Some(id) = id_in(row.id.as_slice()) else {
        return Ok(None);
    };
    if !is_short(&row.class) || !are_tags(row.tags.as_slice()) {
        return Ok(None);
    }
    let Some(input) = data_in(alloc, &row.input)? else {
        return Ok(None);
    };
    Ok(Some(request_of(alloc, id, terms, row, input)?))
}

/// The request of these terms with this class, these tags and this input. It is within its limits.
fn request_of(
    alloc: Global,
    id: Uuid,
    terms: &Terms,
    row: &Row,
    input: Data,
) -> Result<Request, AllocError>
    requires terms { AreTerms terms.now }
    requires tags { are_tags row.now.tags ≡ true }
    ensures { IfOk result (λ request. request ≡ asked_of terms.now id row.now.class row.now.tags input) }
{
    let mut builder = builder_of(alloc, id, &row.class, terms.period)?;
    builder.input(input);
    builder.merger(terms.merger);
    builder.constraints(terms.constraints);
    builder.backoff(terms.backoff.policy, terms.backoff.delay);
    builder.initial_delay(terms.initial_delay);
    builder.keep(terms.keep);
    add_tags(alloc, &mut builder, row.tags.as_slice())?;
    builder.build().map_err(|_| AllocError)
}

/// The builder of one-time work, or of work that repeats this often.
fn builder_of(
    alloc: Global,
    id: Uuid,
    class: &Text,
    period: Option<Period>,
) -> Result<Builder, AllocError>
    requires { IfSome period IsPeriod }
    ensures { IfOk result (λ builder. builder ≡ record (one_time_of id class.now) { period = period }) }
{
    let class = class.replica(alloc)?.into_string();
    match period {
        Some(period) => Ok(Builder::periodic(alloc, id, class, period.period, Some(period.flex))),
        None => Ok(Builder::one_time(alloc, id, class)),
    }
}

/// Adds tags to a builder that has none.
fn add_tags(alloc: Global, builder: &mut Builder, tags: &[Text]) -> Result<(), AllocError>
    requires none { builder.old.tags ≡ [] }
    requires tags { are_tags tags.now ≡ true }
    ensures { OnOk result (builder.new ≡ record builder.old { tags = tags.now }) }
{
    for tag in tags {
        builder.tag(tag.replica(alloc)?.into_string())?;
    }
    Ok(())
}
