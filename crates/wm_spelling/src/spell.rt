//! What stands in lists of a spelling.
ghost use Rattle.std.specs.Prelude.{◌≡◌, IfOk};
ghost use Rattle.serde_json.specs.Data as json;
ghost use Rattle.serde_json.specs.View.{view};
ghost use Rattle.wm_data.specs.DataJson.{list_of};
ghost use Rattle.wm_spelling.specs.Works.{id_json};

use serde_json::{Value, push};
use std::alloc::{AllocError, Global};
use uuid::Uuid;
use wm_collections::{Items, Text};

/// What a spelling has lists of.
pub(crate) trait Spell: Drop {
    /// It as JSON.
    ghost form: { Self → json.Data };

    fn to_json(&self, alloc: Global) -> Result<Value, AllocError>
        ensures { IfOk result (λ value. view value ≡ form self.now) };
}

impl Spell for Uuid {
    ghost use Rattle.wm_spelling.specs.Works.{id_json};

    ghost form = { id_json };

    fn to_json(&self, alloc: Global) -> Result<Value, AllocError> {
        id_value(alloc, self)
    }
}

impl Spell for Text {
    ghost form = { json.string };

    fn to_json(&self, alloc: Global) -> Result<Value, AllocError> {
        Value::try_from_str(alloc, self.as_str())
    }
}

/// An id, hyphenated and in lower case.
pub(crate) fn id_value(alloc: Global, id: &Uuid) -> Result<Value, AllocError>
    ensures { IfOk result (λ value. view value ≡ id_json id.now) }
{
    let mut buffer = Uuid::encode_buffer();
    Value::try_from_str(alloc, id.hyphenated().encode_lower(&mut buffer))
}

/// A list, item by item.
pub(crate) fn list_value<T: Spell>(alloc: Global, items: &Items<T>) -> Result<Value, AllocError>
    ensures { IfOk result (λ value. view value ≡ list_of T.form items.now) }
{
    let mut values = Vec::new(alloc);
    for item in items.as_slice() {
        push(&mut values, item.to_json(alloc)?)?;
    }
    Ok(Value::Array(values))
}
