//! Data as JSON.
ghost use Rattle.std.specs.Prelude.{◌≡◌, map, Ok, IfOk, IfErr, IsUtf8};
ghost use Rattle.serde_json.specs.View.{view, members_view};
ghost use Rattle.wm_collections.specs.Lists.{AscendByBytes};
ghost use Rattle.wm_data.specs.DataJson.{data_json, data_text, entries_json, list_of, typed, value_json};
ghost use Rattle.wm_data.specs.DataRead.{read_data};
ghost use Rattle.wm_data.specs.Tokens.{Appends, tokens_of};

use crate::data::{Data, DataEntry};
use crate::element::{Element, list_to_json, write_list};
use crate::fault::DataFault;
use crate::value::Value;
use json::Writer;
use serde_json::{Map, put};
use std::alloc::{AllocError, Global};
use wm_collections::{Items, Text};

impl Data {
    /// It as a JSON object: under each key an object, whose one key is the name of the value's type.
    pub fn to_json(&self, alloc: Global) -> Result<serde_json::Value, DataFault>
        ensures ok { IfOk result (λ value. view value ≡ data_json self.now) }
        ensures reads_back { IfOk result (λ value. read_data (view value) ≡ Ok self.now) }
        ensures err { IfErr result (λ fault. fault ≡ DataFault.Memory) }
    {
        Ok(entries_to_json(alloc, self.entries())?)
    }

    /// Its canonical text: it as JSON, compact and with the keys in ascending byte order.
    pub fn to_text(&self, alloc: Global) -> Result<Text, AllocError>
        ensures { IfOk result (λ text. text ≡ data_text self.now) }
    {
        if self.entries().is_empty() {
            return Text::from_str(alloc, "{}");
        }
        let mut writer = Writer::new(Vec::with_capacity(alloc, ROOM)?);
        write_entries(&mut writer, self.entries())?;
        Ok(text_of(writer.into_inner()))
    }
}

/// How many bytes a text has room for at first.
const ROOM: usize = 128;

/// The text of bytes that are UTF-8.
fn text_of(bytes: Vec<u8>) -> Text
    requires { IsUtf8 bytes.items }
    ensures { result ≡ bytes.items }
{
    match String::from_utf8(bytes) {
        Ok(string) => Text::from_string(string),
        Err(_) => unreachable!(),
    }
}

/// Writes the object of entries after what a writer has.
fn write_entries(writer: &mut Writer, entries: &[DataEntry]) -> Result<(), AllocError>
    ensures { Appends result writer.old writer.new (tokens_of (data_json entries.now)) }
{
    writer.begin_object()?;
    for entry in entries {
        writer.key(entry.key.as_str())?;
        write_value(writer, &entry.value)?;
    }
    writer.end_object()
}

/// Writes a value, under the name of its type.
fn write_value(writer: &mut Writer, value: &Value) -> Result<(), AllocError>
    ensures { Appends result writer.old writer.new (tokens_of (value_json value.now)) }
{
    match value {
        Value::Bool(value) => write_one(writer, "bool", value),
        Value::Byte(value) => write_one(writer, "byte", value),
        Value::Int(value) => write_one(writer, "int", value),
        Value::Long(value) => write_one(writer, "long", value),
        Value::Text(text) => write_one(writer, "text", text),
        Value::Bools(values) => write_many(writer, "bools", values),
        Value::Bytes(values) => write_many(writer, "bytes", values),
        Value::Ints(values) => write_many(writer, "ints", values),
        Value::Longs(values) => write_many(writer, "longs", values),
        Value::Texts(texts) => write_many(writer, "texts", texts),
    }
}

/// Writes an object whose one key is the name.
fn write_one<T: Element>(writer: &mut Writer, name: &str, element: &T) -> Result<(), AllocError>
    ensures { Appends result writer.old writer.new (tokens_of (typed name.now (T.form element.now))) }
{
    writer.begin_object()?;
    writer.key(name)?;
    element.write(writer)?;
    writer.end_object()
}

/// Writes an object whose one key is the name, with a list under it.
fn write_many<T: Element>(
    writer: &mut Writer,
    name: &str,
    elements: &Items<T>,
) -> Result<(), AllocError>
    ensures { Appends result writer.old writer.new
        (tokens_of (typed name.now (list_of T.form elements.now))) }
{
    writer.begin_object()?;
    writer.key(name)?;
    write_list(writer, elements)?;
    writer.end_object()
}

fn entries_to_json(alloc: Global, entries: &[DataEntry]) -> Result<serde_json::Value, AllocError>
    requires { AscendByBytes (map (λ entry. entry.key) entries.now) }
    ensures { IfOk result (λ value. view value ≡ data_json entries.now) }
{
    let mut members = Map::new(alloc);
    for entry in entries {
        let value = value_to_json(alloc, &entry.value)?;
        put(&mut members, alloc, entry.key.as_str(), value)?;
    }
    Ok(serde_json::Value::Object(members))
}

/// A value, under the name of its type.
fn value_to_json(alloc: Global, value: &Value) -> Result<serde_json::Value, AllocError>
    ensures { IfOk result (λ json. view json ≡ value_json value.now) }
{
    match value {
        Value::Bool(value) => one(alloc, "bool", value),
        Value::Byte(value) => one(alloc, "byte", value),
        Value::Int(value) => one(alloc, "int", value),
        Value::Long(value) => one(alloc, "long", value),
        Value::Text(text) => one(alloc, "text", text),
        Value::Bools(values) => many(alloc, "bools", values),
        Value::Bytes(values) => many(alloc, "bytes", values),
        Value::Ints(values) => many(alloc, "ints", values),
        Value::Longs(values) => many(alloc, "longs", values),
        Value::Texts(texts) => many(alloc, "texts", texts),
    }
}

fn one<T: Element>(alloc: Global, name: &str, element: &T) -> Result<serde_json::Value, AllocError>
    ensures { IfOk result (λ json. view json ≡ typed name.now (T.form element.now)) }
{
    named(alloc, name, element.to_json(alloc)?)
}

fn many<T: Element>(
    alloc: Global,
    name: &str,
    elements: &Items<T>,
) -> Result<serde_json::Value, AllocError>
    ensures { IfOk result (λ json. view json ≡ typed name.now (list_of T.form elements.now)) }
{
    named(alloc, name, list_to_json(alloc, elements)?)
}

/// An object whose one key is the name.
fn named(
    alloc: Global,
    name: &str,
    content: serde_json::Value,
) -> Result<serde_json::Value, AllocError>
    ensures { IfOk result (λ json. view json ≡ typed name.now (view content)) }
{
    let mut members = Map::new(alloc);
    put(&mut members, alloc, name, content)?;
    Ok(serde_json::Value::Object(members))
}
