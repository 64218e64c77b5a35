//! The step of a command.
ghost use Rattle.std.specs.Prelude.{ℕ, IfOk};
ghost use Rattle.wm_machine.specs.Outcome.{IsAskable};
ghost use Rattle.wm_machine.specs.Valid.{Valid};
ghost use Rattle.wm_replay.specs.Stepped.{GoesOn, IsCommandStep, IsExecuted};

use crate::enqueueing::enqueue;
use std::alloc::{AllocError, Global};
use wm_machine::{Command, Reply, State};
use wm_replay_commands::{
    cancel, faulty, hush, moment, observe, prune, query, retire, set_conditions, settle, summary,
    update,
};

/// The step of a command that may be asked: its reply, and the state becomes the one after it. None
/// where the command isn't legal in the state, which is left as it was. Memory that is refused is the
/// only error.
pub fn execute(
    alloc: Global,
    state: &mut State,
    command: &Command,
) -> Result<Option<Reply>, AllocError>
    requires valid { Valid state.old }
    requires askable { IsAskable command.now }
    ensures executed { IfOk result (λ reply. IsExecuted state.old command.entry.now reply state.new) }
    ensures step { (line : ℕ) → IfOk result (λ reply. IsCommandStep state.old line command.entry.now reply state.new) }
    ensures goes_on { IfOk result (λ reply. GoesOn state.old state.new) }
{
    make(alloc, state, command)
}

/// The step of a command.
fn make(alloc: Global, state: &mut State, command: &Command) -> Result<Option<Reply>, AllocError>
    requires valid { Valid state.old }
    ensures { IfOk result (λ reply. IsExecuted state.old command.entry.now reply state.new) }
{
    match command {
        Command::Enqueue { named, batch } => Ok(Some(enqueue(alloc, state, named, batch)?)),
        Command::Cancel(target) => Ok(Some(cancel(alloc, state, target)?)),
        Command::Update(request) => Ok(Some(update(alloc, state, request)?)),
        Command::Moment(at) => Ok(Some(moment(state, *at))),
        Command::Conditions(conditions) => Ok(Some(set_conditions(alloc, state, *conditions)?)),
        Command::Prune { force } => Ok(Some(prune(alloc, state, *force)?)),
        Command::Query(asked) => Ok(Some(query(alloc, state, asked)?)),
        Command::Observe(asked) => Ok(Some(observe(alloc, state, asked)?)),
        Command::Retire(class) => Ok(Some(retire(alloc, state, class))),
        Command::Settle => Ok(settle(state)),
        Command::Hush => Ok(Some(hush(state))),
        Command::Summary => Ok(Some(summary(state))),
        Command::Faulty(fault) => Ok(Some(faulty(alloc, fault)?)),
    }
}
