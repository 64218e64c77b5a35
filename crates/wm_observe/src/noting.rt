//! What observers are told of works.
ghost use Rattle.std.specs.Prelude.{◌≡◌, ◌≤◌, ◌++◌, filter_map, length, Decides, IfOk, OnOk};
ghost use Rattle.wm_observe.specs.Notes.{differs_in, matches_in, note_of, notes, same_info, told_in};

use crate::note::{Note, Pair};
use std::alloc::{AllocError, Global};
use wm_collections::{Items, Replica};
use wm_machine::{WorkInfo, WorkQuery};
use wm_query::matches;

/// Whether two infos are the same. It takes no memory.
pub fn is_same(one: &WorkInfo, other: &WorkInfo) -> bool
    ensures same { result ≡ same_info one.now other.now }
    ensures decides { Decides result (one.now ≡ other.now) }
{
    *one == *other
}

/// Whether what is told of a work differs before and after.
fn differs(before: &Option<WorkInfo>, after: &Option<WorkInfo>) -> bool
    ensures { result ≡ differs_in before.now after.now }
{
    match (before, after) {
        (None, None) => false,
        (Some(before), Some(after)) => !is_same(before, after),
        _ => true,
    }
}

/// Whether a work that is there matches a query.
fn matches_in(query: &WorkQuery, info: &Option<WorkInfo>) -> bool
    ensures { result ≡ matches_in query.now info.now }
{
    match info {
        Some(info) => matches(query, info),
        None => false,
    }
}

/// What is told of a work that has changed.
fn told_in(alloc: Global, observer: u32, pair: &Pair) -> Result<Option<Note>, AllocError>
    ensures { IfOk result (λ told. told ≡ told_in observer pair.entry.now.before pair.entry.now.after) }
{
    Ok(match (&pair.before, &pair.after) {
        (_, Some(after)) => Some(Note::Info {
            observer,
            info: after.replica(alloc)?,
        }),
        (Some(before), None) => Some(Note::Gone {
            observer,
            seq: before.seq,
        }),
        (None, None) => None,
    })
}

/// What an observer is told of a work, if anything.
fn note_of(
    alloc: Global,
    query: &WorkQuery,
    observer: u32,
    pair: &Pair,
) -> Result<Option<Note>, AllocError>
    ensures { IfOk result (λ told. told ≡ note_of query.entry.now observer pair.entry.now) }
{
    let matched = matches_in(query, &pair.before) || matches_in(query, &pair.after);
    if differs(&pair.before, &pair.after) && matched {
        told_in(alloc, observer, pair)
    } else {
        Ok(None)
    }
}

/// Adds what an observer is told of works.
fn note_each(
    alloc: Global,
    told: &mut Items<Note>,
    query: &WorkQuery,
    observer: u32,
    pairs: &[Pair],
) -> Result<(), AllocError>
    ensures { OnOk result (told.new ≡ told.old ++ filter_map (note_of query.entry.now observer) pairs.entry.now) }
{
    for pair in pairs {
        if let Some(note) = note_of(alloc, query, observer, pair)? {
            told.push(note)?;
        }
    }
    Ok(())
}

/// What observers, numbered from 1, are told of works, each given before and after an event: for
/// each observer in order and each work in order, what is told of it now, or that it isn't there
/// any more, where that differs from before and the work matches the observer's query before or
/// after. Memory that is refused is the only error.
pub fn notes(
    alloc: Global,
    observers: &[WorkQuery],
    pairs: &[Pair],
) -> Result<Items<Note>, AllocError>
    requires few { length observers.now ≤ 100 }
    ensures { IfOk result (λ told. told ≡ notes observers.entry.now pairs.entry.now) }
{
    let mut told = Items::new(alloc);
    let mut observer = 1;
    for query in observers {
        note_each(alloc, &mut told, query, observer, pairs)?;
        observer += 1;
    }
    Ok(told)
}
