//! The step of an event that a line tells, and its text.
ghost use Rattle.std.specs.Prelude.{◌<◌, IfOk, option_map};
ghost use Rattle.wm_audit.specs.Happened.{IsHappened, IsWritten};
ghost use Rattle.wm_audit_text.specs.Lines.{MayBeTold};
ghost use Rattle.wm_audit_text.specs.declared.entry.Entry.TheVariants as entry;
ghost use Rattle.wm_machine.specs.Outcome.{IsAskable};
ghost use Rattle.wm_machine.specs.Valid.{Valid};
ghost use Rattle.wm_replay.specs.Stepped.{IsOfRun};

use crate::telling::{seen, told};
use std::alloc::{AllocError, Global};
use wm_audit_text::Entry;
use wm_collections::Shared;
use wm_machine::{Command, Event, State};
use wm_replay::{execute, replay};

/// The step of an event that is told, and what is written for it: the state becomes the one after it.
/// None where no event that would be told so is legal in the state. Memory that is refused is the only
/// error. Where it is, or where there is none, the state may be anything.
pub(crate) fn written(
    alloc: Global,
    state: &mut State,
    entry: Entry,
) -> Result<Option<Vec<u8>>, AllocError>
    requires valid { Valid state.old }
    requires few_runs { state.old.next_run < 18446744073709551615 }
    requires may_be { MayBeTold entry }
    ensures { IfOk result (λ text. IsWritten state.old entry (option_map (λ text. text.items) text) state.new) }
{
    let before = seen(alloc, state)?;
    match happened(alloc, state, entry)? {
        Some(event) => Ok(Some(told(alloc, &before, &event, state)?)),
        None => Ok(None),
    }
}

/// The event that is told, and its step. None where no event that would be told so is legal.
fn happened(alloc: Global, state: &mut State, entry: Entry) -> Result<Option<Event>, AllocError>
    requires valid { Valid state.old }
    requires few_runs { state.old.next_run < 18446744073709551615 }
    requires may_be { MayBeTold entry }
    ensures happened { IfOk result (λ event. IsHappened state.old entry event state.new) }
{
    match entry {
        Entry::Command { line, command } => executed(alloc, state, line, command),
        Entry::Run(event) => replayed(alloc, state, event),
    }
}

/// The event of a command, with its reply, and its step.
fn executed(
    alloc: Global,
    state: &mut State,
    line: u32,
    command: Command,
) -> Result<Option<Event>, AllocError>
    requires valid { Valid state.old }
    requires askable { IsAskable command }
    ensures { IfOk result (λ event. IsHappened state.old (entry.Command line command) event state.new) }
{
    let command = Shared::new(alloc, command)?;
    match execute(alloc, state, command.value())? {
        Some(reply) => Ok(Some(Event::Command {
            line,
            command,
            reply,
        })),
        None => Ok(None),
    }
}

/// An event of a run, where it is legal, and its step.
fn replayed(alloc: Global, state: &mut State, event: Event) -> Result<Option<Event>, AllocError>
    requires valid { Valid state.old }
    requires few_runs { state.old.next_run < 18446744073709551615 }
    requires of_run { IsOfRun event }
    ensures { IfOk result (λ found. IsHappened state.old (entry.Run event) found state.new) }
{
    if replay(alloc, state, &event)? {
        Ok(Some(event))
    } else {
        Ok(None)
    }
}
