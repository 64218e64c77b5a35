//! All conditions as they stand in a line.
ghost use Rattle.std.specs.Prelude.{◌≡◌};
ghost use Rattle.serde_json.specs.View.{view};
ghost use Rattle.wm_script.specs.Objects.{has_only};
ghost use Rattle.wm_script.specs.Conditions.{condition_keys, conditions_in};

use crate::objects::has_only;
use crate::values::flag_at;
use serde_json::Value;
use wm_conditions::Conditions;

/// All seven conditions, each false where it is absent.
#[tactic(auto, unfolding(crate::specs::Conditions::conditions_in))]
pub fn conditions_in(value: &Value) -> Option<Conditions>
    ensures { result ≡ conditions_in (view value.now) }
{
    if !has_condition_keys(value) {
        return None;
    }
    Some(Conditions {
        connected: flag_at(value.get("connected"))?,
        metered: flag_at(value.get("metered"))?,
        roaming: flag_at(value.get("roaming"))?,
        charging: flag_at(value.get("charging"))?,
        idle: flag_at(value.get("idle"))?,
        battery_low: flag_at(value.get("battery_low"))?,
        storage_low: flag_at(value.get("storage_low"))?,
    })
}

/// Whether it is an object that has no other key than those of the conditions.
fn has_condition_keys(value: &Value) -> bool
    ensures { result ≡ has_only condition_keys (view value.now) }
{
    has_only(
        value,
        &[
            "battery_low",
            "charging",
            "cmd",
            "connected",
            "idle",
            "metered",
            "roaming",
            "storage_low",
        ],
    )
}
