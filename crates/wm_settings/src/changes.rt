//! What a command comes to: the change of its step, whose event has the command and its reply.
ghost use Rattle.std.specs.Prelude.{◌≡◌, IfOk};
ghost use Rattle.wm_settings.specs.Builds.{setting_outcome, HasOutcome, IsExecuted};
ghost use Rattle.wm_machine.specs.Replied.{unchanged};

use std::alloc::{AllocError, Global};
use wm_changes::{SettingChange, StepChange};
use wm_collections::{Shared, both};
use wm_machine::{Command, Event, Reply};
use wm_steps::View;

/// The event of a command with its reply. Memory that is refused is the only error.
pub fn event_of(
    alloc: Global,
    line: u32,
    command: Command,
    reply: Reply,
) -> Result<Event, AllocError>
    ensures { IfOk result (λ event. event ≡ Event.Command line command reply) }
{
    let (reply, command) = both(reply, shared(alloc, command))?;
    Ok(Event::Command {
        line,
        command,
        reply,
    })
}

/// A value in memory of its own.
fn shared<T: Drop>(alloc: Global, value: T) -> Result<Shared<T>, AllocError>
    ensures { IfOk result (λ shared. shared ≡ value) }
{
    Shared::new(alloc, value).map_err(AllocError::from)
}

/// What a command comes to that only has a reply.
pub fn replying(
    alloc: Global,
    view: &View,
    line: u32,
    command: Command,
    reply: Reply,
) -> Result<StepChange, AllocError>
    requires { HasOutcome view.now command (unchanged view.now reply) }
    ensures { IfOk result (IsExecuted view.entry.now line command) }
{
    setting(alloc, view, line, command, reply, SettingChange::Unchanged)
}

/// What a command comes to that sets something in the state, and does nothing else.
pub fn setting(
    alloc: Global,
    view: &View,
    line: u32,
    command: Command,
    reply: Reply,
    to: SettingChange,
) -> Result<StepChange, AllocError>
    requires { HasOutcome view.now command (setting_outcome reply to view.now) }
    ensures { IfOk result (IsExecuted view.entry.now line command) }
{
    // what the type of a view keeps is known where a field of it is read
    let _reached = &view.state;
    let (to, event) = both(to, event_of(alloc, line, command, reply))?;
    Ok(StepChange::setting(alloc, to, event))
}
