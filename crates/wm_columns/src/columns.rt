//! The columns of a row that hold lists, both ways.
ghost use Rattle.serde_json.specs.Data.{array, string};
ghost use Rattle.serde_json.specs.View.{items_of, items_view, view};
ghost use Rattle.std.specs.Prelude.{◌≡◌, ℤ, List, [], ◌∷◌, ◌++◌, Some, IfOk, OnOk, map, string_bytes};
ghost use Rattle.wm_columns.specs.Columns.{prior_in, tags_in, texts_in, texts_of};
ghost use Rattle.wm_columns.specs.Values.{AreLists};

use serde_json::{Value, push};
use std::alloc::{AllocError, Global};
use wm_collections::{Items, Text};
use wm_keeper::Row;

/// The lists of a row as their columns hold them.
#[derive(Drop)]
pub struct ListColumns {
    /// Of each prerequisite its eight bytes, the most significant first.
    pub prior: Vec<u8>,
    /// A JSON list of the tags.
    pub tags: String,
}

/// The columns of the lists of a row. Fails where memory is refused.
pub fn list_columns(alloc: Global, row: &Row) -> Result<ListColumns, AllocError>
    ensures { IfOk result (λ lists. AreLists row.now lists.prior.items (string_bytes lists.tags)) }
{
    let prior = prior_bytes(alloc, row.prior.as_slice())?;
    let tags = tags_text(alloc, row.tags.as_slice())?;
    Ok(ListColumns { prior, tags })
}

/// The bytes of a column `prior`: of each number eight, in two's complement, the most significant
/// first.
fn prior_bytes(alloc: Global, numbers: &[i64]) -> Result<Vec<u8>, AllocError>
    ensures { IfOk result (λ bytes. prior_in bytes.items ≡ Some numbers.now) }
{
    let mut bytes = Vec::new(alloc);
    for number in numbers {
        push_number(&mut bytes, number)?;
    }
    Ok(bytes)
}

/// Adds the bytes of a number at the end.
fn push_number(bytes: &mut Vec<u8>, number: &i64) -> Result<(), AllocError>
    ensures { OnOk result ((numbers : List ℤ) → prior_in bytes.old.items ≡ Some numbers
        → prior_in bytes.new.items ≡ Some (numbers ++ number.now ∷ [])) }
{
    bytes.extend_from_slice(&number.to_be_bytes())
}

/// The numbers of a column `prior`; none where its bytes aren't whole groups of eight.
pub(crate) fn prior_in(alloc: Global, bytes: &[u8]) -> Result<Option<Items<i64>>, AllocError>
    ensures { IfOk result (λ numbers. numbers ≡ prior_in bytes.now) }
{
    let (groups, rest) = bytes.as_chunks::<8>();
    if !rest.is_empty() {
        return Ok(None);
    }
    let mut numbers = Items::new(alloc);
    for group in groups {
        numbers.push(i64::from_be_bytes(*group))?;
    }
    Ok(Some(numbers))
}

/// The text of a column `tags`: a JSON list of them, in its compact spelling.
fn tags_text(alloc: Global, tags: &[Text]) -> Result<String, AllocError>
    ensures { IfOk result (λ text. tags_in (string_bytes text) ≡ Some tags.now) }
{
    tags_json(alloc, tags)?.to_string(alloc)
}

/// Tags as JSON.
fn tags_json(alloc: Global, tags: &[Text]) -> Result<Value, AllocError>
    ensures { IfOk result (λ json. view json ≡ array (items_of (map string tags.now))) }
{
    let mut values = Vec::new(alloc);
    for tag in tags {
        push(&mut values, Value::try_from_str(alloc, tag.as_str())?)?;
    }
    Ok(Value::Array(values))
}

/// The tags of a column `tags`, in whatever spelling; none where its text isn't a JSON list of
/// texts.
pub(crate) fn tags_in(alloc: Global, text: &str) -> Result<Option<Items<Text>>, AllocError>
    ensures { IfOk result (λ tags. tags ≡ tags_in text.now) }
{
    match Value::from_str(alloc, text) {
        Ok(json) => texts_in(alloc, &json),
        Err(error) => if error.is_memory() {
            Err(AllocError)
        } else {
            Ok(None)
        },
    }
}

/// The texts that JSON is a list of; none where it isn't a list of texts.
fn texts_in(alloc: Global, json: &Value) -> Result<Option<Items<Text>>, AllocError>
    ensures { IfOk result (λ texts. texts ≡ texts_in (view json.now)) }
{
    let Some(values) = json.as_array() else {
        return Ok(None);
    };
    each_text(alloc, values.as_slice())
}

/// The values as texts; none where one isn't a text.
fn each_text(alloc: Global, values: &[Value]) -> Result<Option<Items<Text>>, AllocError>
    ensures { IfOk result (λ texts. texts ≡ texts_of (items_view values.now)) }
{
    let mut texts = Items::new(alloc);
    for value in values {
        let Some(text) = value.as_str() else {
            return Ok(None);
        };
        push_text(alloc, &mut texts, text)?;
    }
    Ok(Some(texts))
}

/// Adds a copy of a text at the end.
fn push_text(alloc: Global, texts: &mut Items<Text>, text: &str) -> Result<(), AllocError>
    ensures { OnOk result (texts.new ≡ texts.old ++ text.now ∷ []) }
{
    texts.push(Text::from_str(alloc, text)?)?;
    Ok(())
}
