//! The values that Data holds.
ghost use Rattle.wm_data.specs.InType.{IsInType};

use crate::number::{Number, read_each};
use std::alloc::{AllocError, Global};
use wm_collections::{Items, Replica, Text};

/// A value of one of the types that [`Data`](crate::Data) holds.
#[derive(Debug, Drop, PartialEq, Eq)]
pub enum Value {
    Bool(bool),
    Byte(i8),
    Int(i32),
    Long(i64),
    Text(Text),
    Bools(Items<bool>),
    Bytes(Items<i8>),
    Ints(Items<i32>),
    Longs(Items<i64>),
    Texts(Items<Text>),
}

impl Value {
    /// Reads its numbers, which are then known to be in their types.
    pub(crate) fn read(&self)
        ensures { IsInType self.now }
    {
        match self {
            Value::Byte(number) => number.read(),
            Value::Int(number) => number.read(),
            Value::Long(number) => number.read(),
            Value::Bytes(numbers) => read_each(numbers),
            Value::Ints(numbers) => read_each(numbers),
            Value::Longs(numbers) => read_each(numbers),
            Value::Bool(_) | Value::Text(_) | Value::Bools(_) | Value::Texts(_) => {}
        }
    }
}

impl Replica for Value {
    fn replica(&self, alloc: Global) -> Result<Value, AllocError> {
        Ok(match self {
            Value::Bool(value) => Value::Bool(*value),
            Value::Byte(value) => Value::Byte(*value),
            Value::Int(value) => Value::Int(*value),
            Value::Long(value) => Value::Long(*value),
            Value::Text(value) => Value::Text(value.replica(alloc)?),
            Value::Bools(values) => Value::Bools(values.replica(alloc)?),
            Value::Bytes(values) => Value::Bytes(values.replica(alloc)?),
            Value::Ints(values) => Value::Ints(values.replica(alloc)?),
            Value::Longs(values) => Value::Longs(values.replica(alloc)?),
            Value::Texts(values) => Value::Texts(values.replica(alloc)?),
        })
    }
}
