//! How an object is read by its keys.
ghost use Rattle.std.specs.Prelude.{◌≡◌, map};
ghost use Rattle.std.specs.List.{list_any};
ghost use Rattle.std.specs.Str.{bytes_eq};
ghost use Rattle.serde_json.specs.View.{view, members_view};
ghost use Rattle.wm_script.specs.Objects.{are_among, has_only};

use serde_json::{Map, Value};

/// Whether a value is an object that has no other key than these.
#[tactic(auto, unfolding(crate::specs::Objects::has_only))]
pub fn has_only(value: &Value, keys: &[&str]) -> bool
    ensures { result ≡ has_only (map (λ key. key.now) keys.now) (view value.now) }
{
    match value.as_object() {
        Some(members) => are_among(members, keys),
        None => false,
    }
}

/// Whether each member has one of these keys.
fn are_among(members: &Map<String, Value>, keys: &[&str]) -> bool
    ensures { result ≡ are_among (map (λ key. key.now) keys.now)
        (members_view members.now.entries) }
{
    for (key, _) in members.iter() {
        if !is_among(key.as_str(), keys) {
            return false;
        }
    }
    true
}

/// Whether it is one of these keys.
#[tactic(auto, using(wm_collections::proofs::Lists::list_any_after))]
fn is_among(key: &str, keys: &[&str]) -> bool
    ensures { result ≡ list_any (λ own. bytes_eq own key.now) (map (λ own. own.now) keys.now) }
{
    keys.contains(&key)
}
