//! The unique name of an enqueue, with what is done where it is taken.
ghost use Rattle.std.specs.Prelude.{◌≡◌, option_map, IfErr, IfOk, Ok};
ghost use Rattle.serde_json.specs.View.{view};
ghost use Rattle.wm_script.specs.Names.{named_by, policy_in};
ghost use Rattle.wm_script.specs.Parts.{IsFaultOf};

use crate::parts::{Unread, formed};
use crate::values::short_in;
use serde_json::Value;
use std::alloc::Global;
use wm_collections::Text;
use wm_machine::{Policy, UniqueName};

/// A name with its policy; no name where both are absent, and neither stands without the other.
#[tactic(auto, unfolding(crate::specs::Names::named_by))]
pub fn named_by(
    alloc: Global,
    name: Option<&Value>,
    policy: Option<&Value>,
) -> Result<Option<UniqueName>, Unread>
    ensures ok { IfOk result (λ named. named_by (option_map (λ found. view found.now) name.entry)
        (option_map (λ found. view found.now) policy.entry) ≡ Ok named) }
    ensures err { IfErr result (IsFaultOf (named_by (option_map (λ found. view found.now) name.entry)
        (option_map (λ found. view found.now) policy.entry))) }
{
    match (name, policy) {
        (None, None) => Ok(None),
        (Some(name), Some(policy)) => {
            let name = formed(short_in(name))?;
            let policy = formed(policy_in(policy))?;
            let name = Text::from_str(alloc, name)?;
            Ok(Some(UniqueName { name, policy }))
        }
        _ => Err(Unread::Form),
    }
}

/// A policy by its name.
#[tactic(auto, unfolding(crate::specs::Names::policy_in))]
fn policy_in(value: &Value) -> Option<Policy>
    ensures { result ≡ policy_in (view value.now) }
{
    match value.as_str()? {
        "KEEP" => Some(Policy::Keep),
        "REPLACE" => Some(Policy::Replace),
        "APPEND" => Some(Policy::Append),
        "APPEND_OR_REPLACE" => Some(Policy::AppendOrReplace),
        "CANCEL_AND_REENQUEUE" => Some(Policy::CancelAndReenqueue),
        "UPDATE" => Some(Policy::Update),
        _ => None,
    }
}
