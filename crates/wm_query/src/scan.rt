//! Looking through the records of a state: which work starts next.
ghost use Rattle.std.specs.List.{AllByRecursion};
ghost use Rattle.std.specs.Prelude.{◌≡◌, ◌<◌, length, Some, None, slice_get, option_and_then, IfSome, MatchOption};
ghost use Rattle.wm_collections.specs.Lists.{AllLater};
ghost use Rattle.wm_machine.specs.First.{all_met, comes_before, earlier_of, first_of, has_succeeded, is_startable};
ghost use Rattle.wm_machine.specs.Valid.{Valid, IsBefore, IsRecord};
ghost use Rattle.wm_machine.specs.declared.record.Record.{Record};

use wm_conditions::met;
use wm_machine::{Record, State, has_room, work_numbered};

/// Whether the record of this number has succeeded.
pub fn has_succeeded(works: &[Record], number: u64) -> bool
    requires { AllLater IsBefore works.now }
    ensures { result ≡ has_succeeded works.now number }
{
    match work_numbered(works, number) {
        Some(work) => work.phase.is_succeeded(),
        None => false,
    }
}

/// Whether every prerequisite of a work has succeeded.
#[tactic(auto, unfolding(wm_machine::specs::First::all_met))]
pub fn all_met(works: &[Record], work: &Record) -> bool
    requires { AllLater IsBefore works.now }
    ensures { result ≡ all_met works.now work.now }
{
    work.prior
        .as_slice()
        .iter()
        .all(|number| has_succeeded(works, *number))
}

/// Whether a work may start now.
#[tactic(auto, unfolding(wm_machine::specs::First::is_startable))]
fn is_startable(state: &State, work: &Record) -> bool
    requires in_order { AllLater IsBefore state.now.works }
    requires record { IsRecord work.now }
    ensures { result ≡ is_startable state.entry.now work.now }
{
    work.phase.is_waiting()
        && all_met(state.works.as_slice(), work)
        && work.due() <= state.now
        && met(&work.request.constraints(), &state.conditions)
        && has_room(state.instances.as_slice(), work.request.class().as_str())
}

/// Whether the one work starts before the other.
fn comes_before(one: &Record, other: &Record) -> bool
    requires one { IsRecord one.now }
    requires other { IsRecord other.now }
    ensures { result ≡ comes_before one.now other.now }
{
    one.due() < other.due() || one.due() == other.due() && one.seq < other.seq
}

/// The index of the work that starts next. The records are looked at from the last to the first.
pub fn first_index(state: &State) -> Option<usize>
    requires valid { Valid state.now }
    ensures { MatchOption result (first_of state.entry.now ≡ None)
        (λ index. (index < length state.entry.now.works)
        × (first_of state.entry.now ≡ slice_get state.entry.now.works index)) }
{
    let works = state.works.as_slice();
    let mut first = None;
    let mut index = works.len();
    'works: while index > 0 {
        index -= 1;
        if is_startable(state, &works[index]) {
            first = Some(earlier(works, index, first));
        }
    }
    first
}

/// Of the work at an index and another, the index of the one that starts first.
fn earlier(works: &[Record], index: usize, other: Option<usize>) -> usize
    requires records { AllByRecursion IsRecord works.now }
    requires index { index < length works.now }
    requires other { IfSome other (λ other. other < length works.now) }
    ensures in_range { result < length works.now }
    ensures earlier { (work : Record) → slice_get works.now index ≡ Some work
        → slice_get works.now result ≡ Some (earlier_of work (option_and_then (slice_get works.now) other)) }
{
    match other {
        Some(other) => {
            if comes_before(&works[other], &works[index]) {
                other
            } else {
                index
            }
        }
        None => index,
    }
}
