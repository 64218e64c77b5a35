//! What each command comes to: the change of its step, built from a view of the state, whose event has
//! the command and its reply. A command that changes works has a file of its own; the others stand in
//! wm_settings.
//!
//! [`execute`] asks them. Nothing here changes a state.
#![tactic(auto)]

ghost use Rattle.std.specs.Prelude.{IfOk};
ghost use Rattle.wm_settings.specs.Builds.{IsExecuted};
ghost use Rattle.wm_machine.specs.Outcome.{IsLegalLine};

mod cancel;
mod clearing;
mod conditions;
mod enqueue;
mod member;
mod naming;
mod placement;
mod placing;
mod prune;
mod update;

use std::alloc::{AllocError, Global};
use wm_changes::StepChange;
use wm_machine::Command;
use wm_settings::{faulty, hush, moment, observe, query, retire, settle, summary};
use wm_steps::View;

/// What the command of a line comes to in the state of a view.
pub fn execute(
    alloc: Global,
    view: &View,
    line: u32,
    command: Command,
) -> Result<StepChange, AllocError>
    requires { IsLegalLine view.now command }
    ensures { IfOk result (IsExecuted view.entry.now line command) }
{
    match command {
        Command::Enqueue { named, batch } => enqueue::execute(alloc, view, line, named, batch),
        Command::Cancel(target) => cancel::execute(alloc, view, line, target),
        Command::Update(request) => update::execute(alloc, view, line, request),
        Command::Moment(at) => moment::execute(alloc, view, line, at),
        Command::Conditions(conditions) => conditions::execute(alloc, view, line, conditions),
        Command::Prune { force } => prune::execute(alloc, view, line, force),
        Command::Query(query) => query::execute(alloc, view, line, query),
        Command::Observe(query) => observe::execute(alloc, view, line, query),
        Command::Retire(class) => retire::execute(alloc, view, line, class),
        Command::Settle => settle::execute(alloc, view, line),
        Command::Hush => hush::execute(alloc, view, line),
        Command::Summary => summary::execute(alloc, view, line),
        Command::Faulty(fault) => faulty::execute(alloc, view, line, fault),
    }
}
