//! Where a line of an audit stands, and where the next one does.
ghost use Rattle.std.specs.Prelude.{◌≡◌, ◌<◌, ◌-◌, ◌++◌, IfOk};
ghost use Rattle.wm_audit.specs.Happened.{AreOfRows, IsReady};
ghost use Rattle.wm_audit.specs.Places.{after_rows, IsNext};
ghost use Rattle.wm_machine.specs.Valid.{Valid};

use crate::happening::written;
use crate::opening::opened;
use crate::rows::record_in;
use std::alloc::{AllocError, Global};
use wm_audit_text::{entry_of, header_of};
use wm_collections::Items;
use wm_machine::{Instance, State};
use wm_rows::Before;

/// Where a line stands.
#[derive(Drop)]
pub(crate) enum Place {
    /// It is the first.
    First,
    /// It is one of so many rows, with these hands, after the rows of these records.
    Rows {
        hands: Items<Instance>,
        left: u64,
        before: Before,
    },
    /// It is that of an event or the last one, in this state, after events with this text.
    Log {
        state: State,
        text: Items<u8>,
    },
}

/// Where the next line stands, if this one is right in its place. Memory that is refused is the only
/// error.
pub(crate) fn next_place(
    alloc: Global,
    place: Place,
    line: &[u8],
) -> Result<Option<Place>, AllocError>
    requires { IsReady place }
    ensures { IfOk result (λ next. IsNext place line.now next) }
{
    match place {
        Place::First => after_header(alloc, line),
        Place::Rows {
            hands,
            left,
            before,
        } => after_row(alloc, hands, left, before, line),
        Place::Log { state, text } => after_event(alloc, state, text, line),
    }
}

/// Where the next line stands after the first.
fn after_header(alloc: Global, line: &[u8]) -> Result<Option<Place>, AllocError>
    ensures { IfOk result (λ next. IsNext Place.First line.now next) }
{
    match header_of(alloc, line)? {
        Some(header) => Ok(Some(after_rows(alloc, header.hands, header.rows, Before::new(alloc)))),
        None => Ok(None),
    }
}

/// Where the next line stands after that of a row.
fn after_row(
    alloc: Global,
    hands: Items<Instance>,
    left: u64,
    before: Before,
    line: &[u8],
) -> Result<Option<Place>, AllocError>
    requires left { 0 < left }
    requires sound { AreOfRows before }
    ensures { IfOk result (λ next. IsNext (Place.Rows hands left before) line.now next) }
{
    match record_in(alloc, &before, line)? {
        Some(work) => {
            let before = before.with(alloc, work)?;
            Ok(Some(after_rows(alloc, hands, left - 1, before)))
        }
        None => Ok(None),
    }
}

/// Where a line stands after the rows of these records, with so many rows to come.
fn after_rows(alloc: Global, hands: Items<Instance>, left: u64, before: Before) -> Place
    requires { AreOfRows before }
    ensures { result ≡ after_rows hands left before }
{
    if left == 0 {
        Place::Log {
            state: opened(alloc, before.into_works(), hands),
            text: Items::new(alloc),
        }
    } else {
        Place::Rows {
            hands,
            left,
            before,
        }
    }
}

/// Where the next line stands after that of an event.
fn after_event(
    alloc: Global,
    state: State,
    text: Items<u8>,
    line: &[u8],
) -> Result<Option<Place>, AllocError>
    requires valid { Valid state }
    requires few_runs { state.next_run < 18446744073709551615 }
    ensures { IfOk result (λ next. IsNext (Place.Log state text) line.now next) }
{
    let mut state = state;
    match entry_of(alloc, line)? {
        Some(entry) => match written(alloc, &mut state, entry)? {
            Some(more) => Ok(Some(Place::Log {
                state,
                text: extended(text, more.as_slice())?,
            })),
            None => Ok(None),
        },
        None => Ok(None),
    }
}

/// A text with more behind it.
fn extended(text: Items<u8>, more: &[u8]) -> Result<Items<u8>, AllocError>
    ensures { IfOk result (λ all. all ≡ text ++ more.now) }
{
    let mut bytes = text.into_vec();
    bytes.extend_from_slice(more)?;
    Ok(Items::from_vec(bytes))
}
