//! A batch is checked, and placed where no check refuses it.
ghost use Rattle.std.specs.Prelude.{◌≡◌, true, IfOk};
ghost use Rattle.std.specs.List.{AllByRecursion};
ghost use Rattle.wm_settings.specs.Builds.{IsExecuted};
ghost use Rattle.wm_commands.specs.Placed.{IsPlacedBy};
ghost use Rattle.wm_machine.specs.Outcome.{IsLegalLine};
ghost use Rattle.wm_machine.specs.Enqueued.{refusal_of_placing};
ghost use Rattle.wm_changes.specs.Nodes.{is_there};
ghost use Rattle.wm_unique.specs.Plans.{placing_by, AreNumbersOf};

use crate::naming;
use crate::placement::place;
use std::alloc::{AllocError, Global};
use wm_changes::StepChange;
use wm_collections::both;
use wm_machine::{Command, Refusal, Reply, UniqueName};
use wm_request::Batch;
use wm_settings::{numbers_with_ids, replying};
use wm_steps::View;
use wm_unique::{GroupPlan, check, ids_named_by};

/// What an enqueue comes to.
pub fn execute(
    alloc: Global,
    view: &View,
    line: u32,
    named: Option<UniqueName>,
    batch: Batch,
) -> Result<StepChange, AllocError>
    requires { IsLegalLine view.now (Command.Enqueue named batch) }
    ensures { IfOk result (IsExecuted view.entry.now line (Command.Enqueue named batch)) }
{
    match named {
        Some(unique) => naming::execute(alloc, view, line, unique, batch),
        None => check_and_place(alloc, view, line, None, batch, GroupPlan::free(alloc)),
    }
}

/// Checks a batch, and places it by a plan where no check refuses it.
pub fn check_and_place(
    alloc: Global,
    view: &View,
    line: u32,
    named: Option<UniqueName>,
    batch: Batch,
    plan: GroupPlan,
) -> Result<StepChange, AllocError>
    requires asked { IsLegalLine view.now (Command.Enqueue named batch) }
    requires placed { IsPlacedBy view.now named (placing_by plan) batch.works }
    requires let_go { AreNumbersOf view.now.works plan.let_go }
    requires after { AllByRecursion (λ number. is_there view.now.works number ≡ true) plan.after }
    ensures { IfOk result (IsExecuted view.entry.now line (Command.Enqueue named batch)) }
{
    let checked = checked(alloc, view, &batch, &plan);
    let ((named, batch, plan), checked) = both((named, batch, plan), checked)?;
    match checked {
        Some(refusal) => {
            let command = Command::Enqueue { named, batch };
            replying(alloc, view, line, command, Reply::Refused(refusal))
        }
        None => place(alloc, view, line, named, batch, plan),
    }
}

/// The first check that refuses the batch.
fn checked(
    alloc: Global,
    view: &View,
    batch: &Batch,
    plan: &GroupPlan,
) -> Result<Option<Refusal>, AllocError>
    ensures { IfOk result (λ found. found
        ≡ refusal_of_placing view.entry.now (placing_by plan.entry.now) batch.entry.now.works) }
{
    let ids = ids_named_by(alloc, batch.works().as_slice())?;
    let known = numbers_with_ids(alloc, view, ids.as_slice())?;
    let works = view.state.works.as_slice();
    Ok(check(works, known.as_slice(), batch, plan, view.state.next))
}
