//! The text of an event, with what the observers are told of it.
ghost use Rattle.std.specs.Prelude.{◌≡◌, IfOk};
ghost use Rattle.wm_audit.specs.Happened.{is_watched, notes_in, IsSeen};
ghost use Rattle.wm_machine.specs.Valid.{Valid};
ghost use Rattle.wm_texts.specs.Texts.{text_of};

use crate::pairing::{infos, pairs};
use crate::seen::Seen;
use std::alloc::{AllocError, Global};
use wm_collections::{Items, Replica};
use wm_machine::{Event, State};
use wm_observe::{Note, notes};
use wm_texts::event_text;

/// What the observers of a state see in it; none where none may be told of a step from it.
#[tactic(auto, unfolding(wm_machine::specs::Shown::infos_of))]
pub(crate) fn seen(alloc: Global, state: &State) -> Result<Option<Seen>, AllocError>
    requires { Valid state.now }
    ensures { IfOk result (λ seen. IsSeen state.entry.now seen) }
{
    if !is_watched(state) {
        return Ok(None);
    }
    let observers = state.observers.replica(alloc)?;
    let infos = infos(alloc, state.works.as_slice())?;
    Ok(Some(Seen {
        observers,
        infos,
        next: state.next,
    }))
}

/// Whether anyone may be told of a step from a state: there are observers, and it isn't hushed.
fn is_watched(state: &State) -> bool
    ensures { result ≡ is_watched state.entry.now }
{
    !state.hushed && !state.observers.is_empty()
}

/// What is written for an event that led to a state from one in which this was seen.
pub(crate) fn told(
    alloc: Global,
    seen: &Option<Seen>,
    event: &Event,
    state: &State,
) -> Result<Vec<u8>, AllocError>
    requires { Valid state.now }
    ensures { IfOk result (λ text. text.items
        ≡ text_of event.entry.now (notes_in seen.entry.now state.entry.now) state.entry.now.hushed) }
{
    let notes = notes_of(alloc, seen, state)?;
    event_text(alloc, event, notes.as_slice(), state.hushed)
}

/// What the observers are told of a step to a state from one in which this was seen: nothing where it is
/// hushed.
fn notes_of(alloc: Global, seen: &Option<Seen>, state: &State) -> Result<Items<Note>, AllocError>
    requires { Valid state.now }
    ensures { IfOk result (λ told. told ≡ notes_in seen.entry.now state.entry.now) }
{
    match seen {
        Some(seen) if !state.hushed => {
            let works = state.works.as_slice();
            let pairs = pairs(alloc, seen.infos.as_slice(), seen.next, works)?;
            notes(alloc, seen.observers.as_slice(), pairs.as_slice())
        }
        _ => Ok(Items::new(alloc)),
    }
}
