//! From a hush on only summaries are written.
ghost use Rattle.std.specs.Prelude.{IfOk};
ghost use Rattle.wm_settings.specs.Builds.{IsExecuted};

use crate::changes::setting;
use std::alloc::{AllocError, Global};
use wm_changes::{SettingChange, StepChange};
use wm_machine::{Command, Reply};
use wm_steps::View;

/// What a hush comes to.
pub fn execute(alloc: Global, view: &View, line: u32) -> Result<StepChange, AllocError>
    ensures { IfOk result (IsExecuted view.entry.now line Command.Hush) }
{
    let to = SettingChange::Hush;
    setting(alloc, view, line, Command::Hush, Reply::Hushed, to)
}
