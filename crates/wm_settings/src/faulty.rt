//! A line that has a fault is refused.
ghost use Rattle.std.specs.Prelude.{IfOk};
ghost use Rattle.wm_settings.specs.Builds.{IsExecuted};

use crate::changes::replying;
use std::alloc::{AllocError, Global};
use wm_changes::StepChange;
use wm_collections::copied;
use wm_machine::{Command, LineFault, Refusal, Reply};
use wm_steps::View;

/// What a line that has a fault comes to, in every state.
pub fn execute(
    alloc: Global,
    view: &View,
    line: u32,
    fault: LineFault,
) -> Result<StepChange, AllocError>
    ensures { IfOk result (IsExecuted view.entry.now line (Command.Faulty fault)) }
{
    let (fault, found, _) = copied(alloc, fault, ())?;
    let reply = Reply::Refused(Refusal::Line(found));
    replying(alloc, view, line, Command::Faulty(fault), reply)
}
