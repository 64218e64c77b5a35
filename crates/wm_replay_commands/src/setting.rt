//! The commands that set the moment and the hush, and those that are only answered.
ghost use Rattle.std.specs.Prelude.{◌≡◌, None, Some, IfOk, MatchOption};
ghost use Rattle.wm_machine.specs.Quiet.{settled};
ghost use Rattle.wm_machine.specs.Replied.{unchanged};
ghost use Rattle.wm_machine.specs.Settings.{hushed, moved};
ghost use Rattle.wm_machine.specs.Summarized.{counts_of};
ghost use Rattle.wm_machine.specs.Valid.{Valid};

use crate::counts::counts_of;
use std::alloc::{AllocError, Global};
use wm_collections::Replica;
use wm_machine::{LineFault, Refusal, Reply, State};
use wm_query::first_index;

/// The command that sets the moment. A moment below the present one is refused.
pub fn moment(state: &mut State, at: u64) -> Reply
    ensures { moved state.old at ≡ record { reply = result; state = state.new } }
{
    if at < state.now {
        return Reply::Refused(Refusal::MomentBack { now: state.now });
    }
    state.now = at;
    Reply::Moment
}

/// The command that hushes.
pub fn hush(state: &mut State) -> Reply
    ensures { hushed state.old ≡ record { reply = result; state = state.new } }
{
    state.hushed = true;
    Reply::Hushed
}

/// The command that asks for a summary, which tells the counts of the state. It changes nothing.
pub fn summary(state: &State) -> Reply
    requires valid { Valid state.now }
    ensures { result ≡ Reply.Summary (counts_of state.entry.now) }
{
    Reply::Summary(counts_of(state))
}

/// A line that settles. It is answered where nothing is startable and no run is out, and changes
/// nothing.
pub fn settle(state: &State) -> Option<Reply>
    requires valid { Valid state.now }
    ensures { MatchOption result (settled state.entry.now ≡ None)
        (λ reply. settled state.entry.now ≡ Some (unchanged state.entry.now reply)) }
{
    if state.runs.is_empty() && first_index(state).is_none() {
        Some(Reply::Settled)
    } else {
        None
    }
}

/// A line that isn't in the grammar, which is refused for its fault. It changes nothing.
pub fn faulty(alloc: Global, fault: &LineFault) -> Result<Reply, AllocError>
    ensures { IfOk result (λ reply. reply ≡ Reply.Refused (Refusal.Line fault.entry.now)) }
{
    Ok(Reply::Refused(Refusal::Line(fault.replica(alloc)?)))
}
