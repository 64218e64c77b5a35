//! A query as it stands in a line.
ghost use Rattle.std.specs.Prelude.{◌≡◌, IfErr, IfOk, Ok};
ghost use Rattle.serde_json.specs.View.{view};
ghost use Rattle.wm_script.specs.Parts.{IsFaultOf};
ghost use Rattle.wm_script.specs.Queries.{query_in, state_in};

use crate::objects::has_only;
use crate::parts::{Part, Unread, formed, list_at};
use serde_json::Value;
use std::alloc::Global;
use wm_machine::{Shown, WorkQuery};

/// The query that an object is, which has no other key than these. A list that is absent is empty.
#[tactic(auto, unfolding(crate::specs::Queries::query_in))]
pub fn query_in(alloc: Global, value: &Value) -> Result<WorkQuery, Unread>
    ensures ok { IfOk result (λ query. query_in (view value.now) ≡ Ok query) }
    ensures err { IfErr result (IsFaultOf (query_in (view value.now))) }
{
    if !has_only(value, &["cmd", "ids", "names", "states", "tags"]) {
        return Err(Unread::Form);
    }
    Ok(WorkQuery {
        ids: list_at(alloc, value.get("ids"))?,
        names: list_at(alloc, value.get("names"))?,
        states: list_at(alloc, value.get("states"))?,
        tags: list_at(alloc, value.get("tags"))?,
    })
}

/// A state by its name.
#[tactic(auto, unfolding(crate::specs::Queries::state_in))]
fn state_in(value: &Value) -> Option<Shown>
    ensures { result ≡ state_in (view value.now) }
{
    match value.as_str()? {
        "ENQUEUED" => Some(Shown::Enqueued),
        "RUNNING" => Some(Shown::Running),
        "SUCCEEDED" => Some(Shown::Succeeded),
        "FAILED" => Some(Shown::Failed),
        "BLOCKED" => Some(Shown::Blocked),
        "CANCELLED" => Some(Shown::Cancelled),
        _ => None,
    }
}

impl Part for Shown {
    ghost use Rattle.wm_script.specs.Queries.{state_part};

    ghost reading = { state_part };

    fn read(_alloc: Global, value: &Value) -> Result<Shown, Unread> {
        formed(state_in(value))
    }
}
