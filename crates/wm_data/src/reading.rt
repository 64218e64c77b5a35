//! Data out of JSON.
ghost use Rattle.std.specs.Prelude.{◌≡◌, ◌==◌, ◌<◌, Ok, Some, IfOk, IfErr, OnOk, length, ok_or, option_map, false};
ghost use Rattle.std.specs.List.{list_any};
ghost use Rattle.serde_json.specs.View.{view, members_view};
ghost use Rattle.wm_data.specs.DataRead.{entries_of, member_list, only_member, read_data, read_entry, read_value, value_under};
ghost use Rattle.wm_data.specs.Entries.{with_entry, IsFaultOf};

use crate::builder::DataBuilder;
use crate::data::Data;
use crate::element::{Element, list_from_json};
use crate::fault::DataFault;
use crate::value::Value;
use serde_json::Map;
use std::alloc::{AllocError, Global};
use wm_collections::Text;

impl Data {
    /// The Data that a JSON value is.
    ///
    /// `BadData` with an empty key where it isn't an object, else `EmptyKey` where a key is empty,
    /// else `BadData` with the least key whose value isn't in the form, else `TooLarge`.
    pub fn from_json(alloc: Global, json: &serde_json::Value) -> Result<Data, DataFault>
        ensures ok { IfOk result (λ read. read_data (view json.now) ≡ Ok read) }
        ensures err { IfErr result (IsFaultOf (read_data (view json.now))) }
    {
        let Some(members) = json.as_object() else {
            return Err(bad_data(alloc, "")?);
        };
        if members.contains_key("") {
            return Err(DataFault::EmptyKey);
        }
        read_members(alloc, members)?.build()
    }
}

fn bad_data(alloc: Global, key: &str) -> Result<DataFault, AllocError>
    ensures { IfOk result (λ fault. fault ≡ DataFault.BadData key.now) }
{
    Ok(DataFault::BadData {
        key: Text::from_str(alloc, key)?,
    })
}

/// The members of an object without an empty key, put one after another.
fn read_members(
    alloc: Global,
    members: &Map<String, serde_json::Value>,
) -> Result<DataBuilder, DataFault>
    requires { list_any (λ m. length m.0 == 0) (member_list (members_view members.now.entries)) ≡ false }
    ensures ok { IfOk result (λ builder.
        entries_of (member_list (members_view members.now.entries)) ≡ Ok builder) }
    ensures err { IfErr result
        (IsFaultOf (entries_of (member_list (members_view members.now.entries)))) }
{
    let mut builder = DataBuilder::new(alloc);
    for (key, json) in members.iter() {
        put_member(&mut builder, alloc, key.as_str(), json)?;
    }
    Ok(builder)
}

/// Puts a member that is in the form.
fn put_member(
    builder: &mut DataBuilder,
    alloc: Global,
    key: &str,
    json: &serde_json::Value,
) -> Result<(), DataFault>
    requires { 0 < length key.now }
    ensures ok { OnOk result (option_map (λ entry. with_entry entry builder.old) (read_entry (key.now, view json.now))
        ≡ Some builder.new) }
    ensures err { IfErr result (IsFaultOf (ok_or (read_entry (key.now, view json.now)) (DataFault.BadData key.now))) }
{
    match read_value(alloc, json)? {
        Some(value) => builder.put(String::from_str(alloc, key)?, value),
        None => Err(bad_data(alloc, key)?),
    }
}

/// The value that stands in JSON under the name of its type.
fn read_value(alloc: Global, json: &serde_json::Value) -> Result<Option<Value>, AllocError>
    ensures { IfOk result (λ value. value ≡ read_value (view json.now)) }
{
    match only_member(json) {
        Some((name, content)) => value_under(alloc, name, content),
        None => Ok(None),
    }
}

/// The name and the content of an object that has one member.
fn only_member(json: &serde_json::Value) -> Option<(&str, &serde_json::Value)>
    ensures { option_map (λ m. (m.0.now, view m.1.now)) result ≡ only_member (view json.now) }
{
    let members = json.as_object()?;
    if members.len() != 1 {
        return None;
    }
    let (name, content) = members.first_key_value()?;
    Some((name.as_str(), content))
}

/// A value by the name of its type.
fn value_under(
    alloc: Global,
    name: &str,
    content: &serde_json::Value,
) -> Result<Option<Value>, AllocError>
    ensures { IfOk result (λ value. value ≡ value_under name.now (view content.now)) }
{
    match name {
        "bool" => Ok(bool::from_json(alloc, content)?.map(Value::Bool)),
        "byte" => Ok(i8::from_json(alloc, content)?.map(Value::Byte)),
        "int" => Ok(i32::from_json(alloc, content)?.map(Value::Int)),
        "long" => Ok(i64::from_json(alloc, content)?.map(Value::Long)),
        "text" => Ok(Text::from_json(alloc, content)?.map(Value::Text)),
        "bools" => Ok(list_from_json(alloc, content)?.map(Value::Bools)),
        "bytes" => Ok(list_from_json(alloc, content)?.map(Value::Bytes)),
        "ints" => Ok(list_from_json(alloc, content)?.map(Value::Ints)),
        "longs" => Ok(list_from_json(alloc, content)?.map(Value::Longs)),
        "texts" => Ok(list_from_json(alloc, content)?.map(Value::Texts)),
        _ => Ok(None),
    }
}
