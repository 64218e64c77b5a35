//! A query is answered by what is told of the works that match.
ghost use Rattle.std.specs.Prelude.{IfOk};
ghost use Rattle.wm_settings.specs.Builds.{IsExecuted};

use crate::answering::answer_to;
use crate::changes::replying;
use std::alloc::{AllocError, Global};
use wm_changes::StepChange;
use wm_machine::{Command, Reply, WorkQuery};
use wm_steps::View;

/// What a query comes to.
pub fn execute(
    alloc: Global,
    view: &View,
    line: u32,
    query: WorkQuery,
) -> Result<StepChange, AllocError>
    ensures { IfOk result (IsExecuted view.entry.now line (Command.Query query)) }
{
    let works = answer_to(alloc, view, &query)?;
    let reply = Reply::Query(works);
    replying(alloc, view, line, Command::Query(query), reply)
}
