//! A line that settles is answered where there is nothing left to do.
ghost use Rattle.std.specs.Prelude.{IfOk};
ghost use Rattle.wm_settings.specs.Builds.{IsExecuted};
ghost use Rattle.wm_machine.specs.Outcome.{IsLegalLine};

use crate::changes::replying;
use std::alloc::{AllocError, Global};
use wm_changes::StepChange;
use wm_machine::{Command, Reply};
use wm_steps::View;

/// What a line that settles comes to.
pub fn execute(alloc: Global, view: &View, line: u32) -> Result<StepChange, AllocError>
    requires legal { IsLegalLine view.now Command.Settle }
    ensures { IfOk result (IsExecuted view.entry.now line Command.Settle) }
{
    replying(alloc, view, line, Command::Settle, Reply::Settled)
}
