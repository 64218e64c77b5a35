//! The moment is set, unless it would go back.
ghost use Rattle.std.specs.Prelude.{◌^◌, ◌<◌, IfOk};
ghost use Rattle.wm_settings.specs.Builds.{IsExecuted};

use crate::changes::{replying, setting};
use std::alloc::{AllocError, Global};
use wm_changes::{SettingChange, StepChange};
use wm_machine::{Command, Refusal, Reply};
use wm_steps::View;

/// What a moment comes to.
pub fn execute(alloc: Global, view: &View, line: u32, at: u64) -> Result<StepChange, AllocError>
    requires within { at < 2 ^ 53 }
    ensures { IfOk result (IsExecuted view.entry.now line (Command.Moment at)) }
{
    let command = Command::Moment(at);
    if at < view.state.now {
        let refusal = Refusal::MomentBack {
            now: view.state.now,
        };
        replying(alloc, view, line, command, Reply::Refused(refusal))
    } else {
        let to = SettingChange::Moment(at);
        setting(alloc, view, line, command, Reply::Moment, to)
    }
}
