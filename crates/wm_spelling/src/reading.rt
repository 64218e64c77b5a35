//! The command that a spelling is read as.
ghost use Rattle.std.specs.Prelude.{◌≡◌, ◌≤◌, IfOk};
ghost use Rattle.serde_json.specs.Data.{depth};
ghost use Rattle.serde_json.specs.Read.{max_depth};
ghost use Rattle.serde_json.specs.View.{view};
ghost use Rattle.wm_machine.specs.Outcome.{IsAskable};
ghost use Rattle.wm_script.specs.Lines.{asked_by, or_faulty};
ghost use Rattle.wm_spelling.specs.Commands.{command_in};

use crate::faults::fault_of;
use serde_json::Value;
use std::alloc::{AllocError, Global};
use wm_machine::Command;
use wm_script::command_of;

/// The command that a value is read as: that of a fault, where it spells one, and else the command of
/// its line, so that it may be asked. Whether the value is the spelling of that command isn't looked at.
/// Memory that is refused is the only error.
#[tactic(auto, unfolding(crate::specs::Commands::command_in))]
pub fn command_in(alloc: Global, value: &Value) -> Result<Command, AllocError>
    requires { depth (view value.now) ≤ max_depth }
    ensures command { IfOk result (λ command. command ≡ command_in (view value.now)) }
    ensures askable { IfOk result IsAskable }
{
    match fault_of(alloc, value)? {
        Some(fault) => Ok(Command::Faulty(fault)),
        None => asked_by(alloc, value),
    }
}

/// The command of the line that a value is.
fn asked_by(alloc: Global, value: &Value) -> Result<Command, AllocError>
    requires { depth (view value.now) ≤ max_depth }
    ensures command { IfOk result (λ command. command ≡ or_faulty (asked_by (view value.now))) }
    ensures askable { IfOk result IsAskable }
{
    let line = value.to_vec(alloc)?;
    command_of(alloc, line.as_slice())
}
