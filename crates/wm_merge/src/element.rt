//! What values are made of.
ghost use Rattle.std.specs.Prelude.{◌≡◌, ◌++◌, [], List, OnOk};
ghost use Rattle.wm_data.specs.declared.value.Value.{Value};
ghost use Rattle.wm_merge.specs.Elements.{array_of, bools_of, bytes_of, element_type, ints_of, is_same, longs_of, texts_of};
ghost use Rattle.wm_merge.specs.Growing.{appended};

use std::alloc::{AllocError, Global};
use std::slice;
use wm_collections::{Items, Replica, Text};
use wm_data::Value;

/// The type of what a value is, or is an array of.
#[derive(Clone, Copy, Debug)]
pub(crate) enum ElementType {
    Bool,
    Byte,
    Int,
    Long,
    Text,
}

impl ElementType {
    pub(crate) fn of(value: &Value) -> ElementType
        ensures { result ≡ element_type value.now }
    {
        match value {
            Value::Bool(_) | Value::Bools(_) => ElementType::Bool,
            Value::Byte(_) | Value::Bytes(_) => ElementType::Byte,
            Value::Int(_) | Value::Ints(_) => ElementType::Int,
            Value::Long(_) | Value::Longs(_) => ElementType::Long,
            Value::Text(_) | Value::Texts(_) => ElementType::Text,
        }
    }

    pub(crate) fn is_same(self, other: ElementType) -> bool
        ensures { result ≡ is_same self other }
    {
        match self {
            ElementType::Bool => matches!(other, ElementType::Bool),
            ElementType::Byte => matches!(other, ElementType::Byte),
            ElementType::Int => matches!(other, ElementType::Int),
            ElementType::Long => matches!(other, ElementType::Long),
            ElementType::Text => matches!(other, ElementType::Text),
        }
    }

    /// The array without an element. It takes no memory.
    pub(crate) fn empty_array(self, alloc: Global) -> Value
        ensures { result ≡ array_of self [] }
    {
        match self {
            ElementType::Bool => Value::Bools(Items::new(alloc)),
            ElementType::Byte => Value::Bytes(Items::new(alloc)),
            ElementType::Int => Value::Ints(Items::new(alloc)),
            ElementType::Long => Value::Longs(Items::new(alloc)),
            ElementType::Text => Value::Texts(Items::new(alloc)),
        }
    }
}

/// What a value is, or is an array of.
trait Element: Replica {
    /// The elements of this type in a value.
    ghost elements_of: { Value → List Self };

    fn elements_of(value: &Value) -> &[Self]
        ensures { result.now ≡ elements_of value.now };
}

impl Element for bool {
    ghost elements_of = { bools_of };

    fn elements_of(value: &Value) -> &[bool] {
        match value {
            Value::Bool(value) => slice::from_ref(value),
            Value::Bools(values) => values.as_slice(),
            _ => &[],
        }
    }
}

impl Element for i8 {
    ghost elements_of = { bytes_of };

    fn elements_of(value: &Value) -> &[i8] {
        match value {
            Value::Byte(value) => slice::from_ref(value),
            Value::Bytes(values) => values.as_slice(),
            _ => &[],
        }
    }
}

impl Element for i32 {
    ghost elements_of = { ints_of };

    fn elements_of(value: &Value) -> &[i32] {
        match value {
            Value::Int(value) => slice::from_ref(value),
            Value::Ints(values) => values.as_slice(),
            _ => &[],
        }
    }
}

impl Element for i64 {
    ghost elements_of = { longs_of };

    fn elements_of(value: &Value) -> &[i64] {
        match value {
            Value::Long(value) => slice::from_ref(value),
            Value::Longs(values) => values.as_slice(),
            _ => &[],
        }
    }
}

impl Element for Text {
    ghost elements_of = { texts_of };

    fn elements_of(value: &Value) -> &[Text] {
        match value {
            Value::Text(value) => slice::from_ref(value),
            Value::Texts(values) => values.as_slice(),
            _ => &[],
        }
    }
}

/// Adds the elements of a value to an array of their type.
pub(crate) fn append(alloc: Global, array: &mut Value, value: &Value) -> Result<(), AllocError>
    ensures { OnOk result (array.new ≡ appended array.old value.now) }
{
    match array {
        Value::Bools(all) => extend(alloc, all, value),
        Value::Bytes(all) => extend(alloc, all, value),
        Value::Ints(all) => extend(alloc, all, value),
        Value::Longs(all) => extend(alloc, all, value),
        Value::Texts(all) => extend(alloc, all, value),
        _ => Ok(()),
    }
}

fn extend<T: Element>(alloc: Global, all: &mut Items<T>, value: &Value) -> Result<(), AllocError>
    ensures { OnOk result (all.new ≡ all.old ++ T.elements_of value.now) }
{
    for element in T::elements_of(value) {
        all.push(element.replica(alloc)?)?;
    }
    Ok(())
}
