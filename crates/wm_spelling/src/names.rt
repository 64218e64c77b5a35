//! The names that a spelling has for what is one of several.
ghost use Rattle.std.specs.Prelude.{◌≡◌};
ghost use Rattle.wm_spelling.specs.Names as names;

use wm_conditions::Network;
use wm_data::Merger;
use wm_machine::{Policy, Shown};
use wm_schedule::BackoffPolicy;

/// The name of a merger.
pub(crate) fn merger_name(merger: Merger) -> &'static str
    ensures { result.now ≡ names.merger_name merger }
{
    match merger {
        Merger::Overwriting => "OVERWRITING",
        Merger::ArrayCreating => "ARRAY",
    }
}

/// The name of a network.
pub(crate) fn network_name(network: Network) -> &'static str
    ensures { result.now ≡ names.network_name network }
{
    match network {
        Network::NotRequired => "NOT_REQUIRED",
        Network::Connected => "CONNECTED",
        Network::Unmetered => "UNMETERED",
        Network::NotRoaming => "NOT_ROAMING",
        Network::Metered => "METERED",
    }
}

/// The name of the policy of a backoff.
pub(crate) fn backoff_name(policy: BackoffPolicy) -> &'static str
    ensures { result.now ≡ names.backoff_name policy }
{
    match policy {
        BackoffPolicy::Linear => "LINEAR",
        BackoffPolicy::Exponential => "EXPONENTIAL",
    }
}

/// The name of what is done where a unique name is taken.
pub(crate) fn policy_name(policy: Policy) -> &'static str
    ensures { result.now ≡ names.policy_name policy }
{
    match policy {
        Policy::Keep => "KEEP",
        Policy::Replace => "REPLACE",
        Policy::Append => "APPEND",
        Policy::AppendOrReplace => "APPEND_OR_REPLACE",
        Policy::CancelAndReenqueue => "CANCEL_AND_REENQUEUE",
        Policy::Update => "UPDATE",
    }
}

/// The name of a state.
pub(crate) fn state_name(state: Shown) -> &'static str
    ensures { result.now ≡ names.state_name state }
{
    match state {
        Shown::Enqueued => "ENQUEUED",
        Shown::Running => "RUNNING",
        Shown::Succeeded => "SUCCEEDED",
        Shown::Failed => "FAILED",
        Shown::Blocked => "BLOCKED",
        Shown::Cancelled => "CANCELLED",
    }
}
