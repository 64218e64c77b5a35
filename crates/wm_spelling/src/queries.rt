//! A query as it is spelled.
ghost use Rattle.std.specs.Prelude.{◌≡◌, IfOk};
ghost use Rattle.serde_json.specs.View.{view};
ghost use Rattle.wm_spelling.specs.Commands.{query_json};

use crate::names::state_name;
use crate::spell::{Spell, list_value};
use serde_json::{Value, json};
use std::alloc::{AllocError, Global};
use wm_machine::{Shown, WorkQuery};

impl Spell for Shown {
    ghost use Rattle.wm_spelling.specs.Commands.{state_json};

    ghost form = { state_json };

    fn to_json(&self, alloc: Global) -> Result<Value, AllocError> {
        Value::try_from_str(alloc, state_name(*self))
    }
}

/// A command of this name with the lists of a query.
pub(crate) fn query_value(alloc: Global, name: &str, query: &WorkQuery) -> Result<Value, AllocError>
    ensures { IfOk result (λ value. view value ≡ query_json name.now query.now) }
{
    let ids = list_value(alloc, &query.ids)?;
    let names = list_value(alloc, &query.names)?;
    let states = list_value(alloc, &query.states)?;
    let tags = list_value(alloc, &query.tags)?;
    json!(in alloc; {"cmd": name, "ids": ids, "names": names, "states": states, "tags": tags})
}
