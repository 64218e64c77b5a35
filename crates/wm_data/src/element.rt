//! What values are made of, to JSON and back.
ghost use Rattle.std.specs.Prelude.{◌≡◌, IfOk, Option};
ghost use Rattle.serde_json.specs.Data as json;
ghost use Rattle.serde_json.specs.Find.{as_bool, as_str};
ghost use Rattle.serde_json.specs.View.{view};
ghost use Rattle.wm_data.specs.DataJson.{list_of, whole};
ghost use Rattle.wm_data.specs.DataRead.{list_in, whole_of};
ghost use Rattle.wm_data.specs.Tokens.{Appends, tokens_of};

use json::Writer;
use serde_json::{Value, push};
use std::alloc::{AllocError, Global};
use wm_collections::{Items, Text};

/// What a value holds one or a list of.
pub(crate) trait Element: Drop {
    /// It as JSON.
    ghost form: { Self → json.Data };

    /// What a JSON value is read as.
    ghost reading: { json.Data → Option Self };

    fn to_json(&self, alloc: Global) -> Result<Value, AllocError>
        ensures { IfOk result (λ value. view value ≡ form self.now) };

    /// Writes it after what a writer has.
    fn write(&self, writer: &mut Writer) -> Result<(), AllocError>
        ensures { Appends result writer.old writer.new (tokens_of (form self.now)) };

    fn from_json(alloc: Global, json: &Value) -> Result<Option<Self>, AllocError>
        ensures { IfOk result (λ element. element ≡ reading (view json.now)) };
}

impl Element for bool {
    ghost form = { json.boolean };

    ghost reading = { as_bool };

    fn to_json(&self, _alloc: Global) -> Result<Value, AllocError> {
        Ok(Value::from(*self))
    }

    fn write(&self, writer: &mut Writer) -> Result<(), AllocError> {
        writer.boolean(*self)
    }

    fn from_json(_alloc: Global, json: &Value) -> Result<Option<bool>, AllocError> {
        Ok(json.as_bool())
    }
}

impl Element for i8 {
    ghost form = { whole };

    ghost reading = { whole_of 7 };

    fn to_json(&self, _alloc: Global) -> Result<Value, AllocError> {
        Ok(Value::from(*self))
    }

    fn write(&self, writer: &mut Writer) -> Result<(), AllocError> {
        writer.i64(i64::from(*self))
    }

    fn from_json(_alloc: Global, json: &Value) -> Result<Option<i8>, AllocError> {
        Ok(json.as_i64().and_then(|number| i8::try_from(number).ok()))
    }
}

impl Element for i32 {
    ghost form = { whole };

    ghost reading = { whole_of 31 };

    fn to_json(&self, _alloc: Global) -> Result<Value, AllocError> {
        Ok(Value::from(*self))
    }

    fn write(&self, writer: &mut Writer) -> Result<(), AllocError> {
        writer.i64(i64::from(*self))
    }

    fn from_json(_alloc: Global, json: &Value) -> Result<Option<i32>, AllocError> {
        Ok(json.as_i64().and_then(|number| i32::try_from(number).ok()))
    }
}

impl Element for i64 {
    ghost form = { whole };

    ghost reading = { whole_of 63 };

    fn to_json(&self, _alloc: Global) -> Result<Value, AllocError> {
        Ok(Value::from(*self))
    }

    fn write(&self, writer: &mut Writer) -> Result<(), AllocError> {
        writer.i64(*self)
    }

    fn from_json(_alloc: Global, json: &Value) -> Result<Option<i64>, AllocError> {
        Ok(json.as_i64())
    }
}

impl Element for Text {
    ghost form = { json.string };

    ghost reading = { as_str };

    fn to_json(&self, alloc: Global) -> Result<Value, AllocError> {
        Value::try_from_str(alloc, self.as_str())
    }

    fn write(&self, writer: &mut Writer) -> Result<(), AllocError> {
        writer.string(self.as_str())
    }

    fn from_json(alloc: Global, json: &Value) -> Result<Option<Text>, AllocError> {
        match json.as_str() {
            Some(text) => Ok(Some(Text::from_str(alloc, text)?)),
            None => Ok(None),
        }
    }
}

/// A list as JSON.
pub(crate) fn list_to_json<T: Element>(
    alloc: Global,
    elements: &Items<T>,
) -> Result<Value, AllocError>
    ensures { IfOk result (λ value. view value ≡ list_of T.form elements.now) }
{
    let mut values = Vec::new(alloc);
    for element in elements.as_slice() {
        push(&mut values, element.to_json(alloc)?)?;
    }
    Ok(Value::Array(values))
}

/// Writes a list after what a writer has.
pub(crate) fn write_list<T: Element>(
    writer: &mut Writer,
    elements: &Items<T>,
) -> Result<(), AllocError>
    ensures { Appends result writer.old writer.new (tokens_of (list_of T.form elements.now)) }
{
    writer.begin_array()?;
    for element in elements.as_slice() {
        element.write(writer)?;
    }
    writer.end_array()
}

/// The list that a JSON value is, where each item is an element.
pub(crate) fn list_from_json<T: Element>(
    alloc: Global,
    json: &Value,
) -> Result<Option<Items<T>>, AllocError>
    ensures { IfOk result (λ elements. elements ≡ list_in T.reading (view json.now)) }
{
    let Some(values) = json.as_array() else {
        return Ok(None);
    };
    let mut elements = Items::new(alloc);
    for value in values {
        let Some(element) = T::from_json(alloc, value)? else {
            return Ok(None);
        };
        elements.push(element)?;
    }
    Ok(Some(elements))
}
