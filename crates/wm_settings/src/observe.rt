//! Works are observed.
//!
//! After the guide's page "Managing work" (observing your work).
ghost use Rattle.std.specs.Prelude.{IfOk};
ghost use Rattle.wm_settings.specs.Builds.{IsExecuted};

use crate::answering::answer_to;
use crate::changes::{replying, setting};
use std::alloc::{AllocError, Global};
use wm_changes::{SettingChange, StepChange};
use wm_collections::Replica;
use wm_machine::{Command, Refusal, Reply, WorkQuery};
use wm_steps::View;

/// The most observers that there are.
const MAX_OBSERVERS: u64 = 100;

/// What an observe comes to: there is one observer more, and the reply gives its number, from 1, and
/// what its query asks for.
pub fn execute(
    alloc: Global,
    view: &View,
    line: u32,
    query: WorkQuery,
) -> Result<StepChange, AllocError>
    ensures { IfOk result (IsExecuted view.entry.now line (Command.Observe query)) }
{
    let count = view.state.observers.len() as u64;
    if count >= MAX_OBSERVERS {
        let reply = Reply::Refused(Refusal::TooManyObservers { count });
        return replying(alloc, view, line, Command::Observe(query), reply);
    }
    let works = answer_to(alloc, view, &query)?;
    let to = SettingChange::Observe(query.replica(alloc)?);
    let observer = count as u32 + 1;
    let reply = Reply::Observing { observer, works };
    setting(alloc, view, line, Command::Observe(query), reply, to)
}
