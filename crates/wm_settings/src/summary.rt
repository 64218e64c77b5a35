//! A summary is answered by how many works are in each shown state, and how often they were started.
ghost use Rattle.std.specs.Prelude.{IfOk};
ghost use Rattle.wm_settings.specs.Builds.{IsExecuted};

use crate::changes::replying;
use crate::counts::counts_of;
use std::alloc::{AllocError, Global};
use wm_changes::StepChange;
use wm_machine::{Command, Reply};
use wm_steps::View;

/// What a summary comes to.
pub fn execute(alloc: Global, view: &View, line: u32) -> Result<StepChange, AllocError>
    ensures { IfOk result (IsExecuted view.entry.now line Command.Summary) }
{
    let counts = counts_of(view);
    replying(alloc, view, line, Command::Summary, Reply::Summary(counts))
}
