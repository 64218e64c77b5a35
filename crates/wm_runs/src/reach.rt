//! What the end of a work makes of the records: of the work itself, and of those that it reaches.
//!
//! After the guide's page "Chaining work". Which those are is asked of the graph of the records.
ghost use Rattle.std.specs.Prelude.{◌≡◌, ◌∷◌, ◌++◌, [], is_some, Some, IfOk, IsSome, OnOk};
ghost use Rattle.wm_graph.specs.Marks.{freed_by};
ghost use Rattle.wm_graph.specs.Nodes.{HasNode};
ghost use Rattle.wm_changes.specs.Replacements.{by_numbers};
ghost use Rattle.wm_runs.specs.Reached.{change_by, end_reach, not_started_reach, numbers_of, others, reached_by, replaced_by};
ghost use Rattle.wm_changes.specs.Nodes.{nodes_of, reached_from, IsUnmarked};
ghost use Rattle.wm_graph.specs.Numbers.{RiseFrom};

use std::alloc::{AllocError, Global};
use wm_changes::Replacement;
use wm_collections::{Items, Replica};
use wm_graph::Numbers;
use wm_lifecycle::{closed, freed};
use wm_machine::{End, How, Record};
use wm_steps::View;

/// What the end of a work makes of the other records.
#[derive(Drop)]
pub enum Reach {
    /// They stay as they are.
    Stays,
    /// Those of these numbers that are unfinished are finished in this way at this moment.
    Closes {
        how: How,
        numbers: Numbers,
        now: u64,
    },
    /// Those of these numbers that wait are free from this moment on.
    Frees {
        numbers: Numbers,
        now: u64,
    },
}

/// What the end of a run of a work reaches.
pub fn end_reach(view: &View, work: &Record, end: &End) -> Result<Reach, AllocError>
    requires { IsUnmarked (nodes_of view.now.works) work.now.seq }
    ensures reach { IfOk result (λ reach. reach
        ≡ end_reach work.entry.now.request.period view.entry.now.now work.entry.now.seq end.now
        (nodes_of view.entry.now.works)) }
    ensures rises { IfOk result (λ reach. RiseFrom work.entry.now.seq (numbers_of reach)) }
{
    match end {
        End::Retry => Ok(Reach::Stays),
        End::Success(_) | End::Failure(_) if work.request.period().is_some() => Ok(Reach::Stays),
        End::Success(_) => freeing(view, work.seq),
        End::Failure(_) => closing(view, work.seq, How::Failed),
    }
}

/// What a failed start of a work reaches.
pub fn not_started_reach(view: &View, work: &Record) -> Result<Reach, AllocError>
    requires { HasNode (nodes_of view.now.works) work.now.seq }
    ensures reach { IfOk result (λ reach. reach
        ≡ not_started_reach work.entry.now.request.period view.entry.now.now work.entry.now.seq
        (nodes_of view.entry.now.works)) }
    ensures rises { IfOk result (λ reach. RiseFrom work.entry.now.seq (numbers_of reach)) }
{
    if work.request.period().is_some() {
        Ok(Reach::Stays)
    } else {
        closing(view, work.seq, How::Failed)
    }
}

/// The closing of the descendants of a work, now.
fn closing(view: &View, seq: u64, how: How) -> Result<Reach, AllocError>
    requires { HasNode (nodes_of view.now.works) seq }
    ensures reach { IfOk result (λ reach. reach
        ≡ Reach.Closes how (reached_from (seq ∷ []) (nodes_of view.entry.now.works)) view.entry.now.now) }
    ensures rises { IfOk result (λ reach. RiseFrom seq (numbers_of reach)) }
{
    let numbers = view.descendants(seq)?;
    let now = view.state.now;
    Ok(Reach::Closes { how, numbers, now })
}

/// The freeing of those that have a work, which hasn't succeeded, as their last missing
/// prerequisite.
fn freeing(view: &View, seq: u64) -> Result<Reach, AllocError>
    requires { IsUnmarked (nodes_of view.now.works) seq }
    ensures reach { IfOk result (λ reach. reach
        ≡ Reach.Frees (freed_by (nodes_of view.entry.now.works) seq) view.entry.now.now) }
    ensures rises { IfOk result (λ reach. RiseFrom seq (numbers_of reach)) }
{
    let numbers = view.freed_by(seq)?;
    let now = view.state.now;
    Ok(Reach::Frees { numbers, now })
}

impl Reach {
    /// The numbers of the works that it may change.
    fn numbers(&self) -> &[u64]
        ensures { result.now ≡ numbers_of self.now }
    {
        match self {
            Reach::Stays => &[],
            Reach::Closes { numbers, .. } => numbers.as_slice(),
            Reach::Frees { numbers, .. } => numbers.as_slice(),
        }
    }
}

/// The records that take the place of others where a work comes to an end: the work itself, and
/// those that it reaches. Only their records are looked at.
pub fn replaced_by(
    alloc: Global,
    view: &View,
    itself: &Record,
    reach: &Reach,
) -> Result<Items<Replacement>, AllocError>
    requires { RiseFrom itself.now.seq (numbers_of reach.now) }
    ensures { IfOk result (λ replaced. replaced
        ≡ replaced_by itself.entry.now reach.entry.now view.entry.now.works) }
{
    // what the type of a view keeps is known where a field of it is read
    let _reached = &view.state;
    let mut replaced = Items::new(alloc);
    add_replacement(alloc, &mut replaced, view, itself, reach, itself.seq)?;
    add_others(alloc, &mut replaced, view, itself, reach, reach.numbers())?;
    Ok(replaced)
}

/// Adds the records that take the places of those of these numbers, but for that of the work
/// itself.
fn add_others(
    alloc: Global,
    replaced: &mut Items<Replacement>,
    view: &View,
    itself: &Record,
    reach: &Reach,
    numbers: &[u64],
) -> Result<(), AllocError>
    ensures { OnOk result (replaced.new ≡ replaced.old
        ++ by_numbers (change_by itself.entry.now reach.entry.now) (others itself.entry.now.seq numbers.entry.now) view.entry.now.works) }
{
    for number in numbers {
        if *number != itself.seq {
            add_replacement(alloc, replaced, view, itself, reach, *number)?;
        }
    }
    Ok(())
}

/// Adds the record that takes the place of the one of a number, where that becomes another one.
fn add_replacement(
    alloc: Global,
    replaced: &mut Items<Replacement>,
    view: &View,
    itself: &Record,
    reach: &Reach,
    number: u64,
) -> Result<(), AllocError>
    ensures { OnOk result (replaced.new ≡ replaced.old
        ++ by_numbers (change_by itself.entry.now reach.entry.now) (number ∷ []) view.entry.now.works) }
{
    let _reached = &view.state;
    let Some(index) = view.place_of(number) else {
        return Ok(());
    };
    let work = view.work_at(index);
    if is_changed(itself, reach, work) {
        let work = changed(alloc, itself, reach, work)?;
        replaced.push(Replacement { index, work })?;
    }
    Ok(())
}

/// Whether one of the records becomes another one.
fn is_changed(itself: &Record, reach: &Reach, work: &Record) -> bool
    ensures { result ≡ is_some (change_by itself.now reach.now work.now) }
{
    work.seq == itself.seq || is_reached(reach, work)
}

/// Whether another record becomes another one.
fn is_reached(reach: &Reach, work: &Record) -> bool
    ensures { result ≡ is_some (reached_by reach.now work.now) }
{
    match reach {
        Reach::Stays => false,
        Reach::Closes { numbers, .. } => work.phase.is_open() && numbers.has(work.seq),
        Reach::Frees { numbers, .. } => work.phase.is_waiting() && numbers.has(work.seq),
    }
}

/// What becomes of one of the records that become another one.
fn changed(
    alloc: Global,
    itself: &Record,
    reach: &Reach,
    work: &Record,
) -> Result<Record, AllocError>
    requires { IsSome (change_by itself.now reach.now work.now) }
    ensures { IfOk result (λ changed. change_by itself.entry.now reach.entry.now work.entry.now ≡ Some changed) }
{
    if work.seq == itself.seq {
        return itself.replica(alloc);
    }
    match reach {
        Reach::Stays => unreachable!(),
        Reach::Closes { how, now, .. } => closed(alloc, work, *how, *now),
        Reach::Frees { now, .. } => freed(alloc, work, *now),
    }
}
