//! What came of a call, as JSON.

use serde_json::{Map, Value, push, put};
use std::alloc::{AllocError, Global};
use uuid::Uuid;
use wm_collections::Text;
use wm_data::Data;

/// A JSON object that is put together. Whether memory was refused is asked once, at its end: so what
/// tells a value has no early return beside it.
#[derive(Drop)]
pub struct Told {
    members: Map<String, Value>,
    refused: bool,
    alloc: Global,
}

impl Told {
    pub fn new(alloc: Global) -> Told {
        Told {
            members: Map::new(alloc),
            refused: false,
            alloc,
        }
    }

    /// Puts a value, which memory may have been refused for.
    pub fn put(&mut self, key: &str, value: Result<Value, AllocError>) {
        if self.try_put(key, value).is_err() {
            self.refused = true;
        }
    }

    fn try_put(&mut self, key: &str, value: Result<Value, AllocError>) -> Result<(), AllocError> {
        put(&mut self.members, self.alloc, key, value?)
    }

    pub fn flag(&mut self, key: &str, flag: bool) {
        self.put(key, Ok(Value::from(flag)));
    }

    pub fn number(&mut self, key: &str, number: u64) {
        self.put(key, Ok(Value::from(number)));
    }

    pub fn text(&mut self, key: &str, text: &str) {
        self.put(key, string(self.alloc, text));
    }

    pub fn data(&mut self, key: &str, told: &Data) {
        self.put(key, data(self.alloc, told));
    }

    /// The object. Memory that was refused is the only error.
    pub fn into_value(self) -> Result<Value, AllocError> {
        if self.refused {
            return Err(AllocError);
        }
        Ok(Value::Object(self.members))
    }
}

/// A value, where its only fault is that memory was refused.
fn unless_refused<T, E: Drop>(value: Result<T, E>) -> Result<T, AllocError> {
    match value {
        Ok(value) => Ok(value),
        Err(fault) => {
            drop(fault);
            Err(AllocError)
        }
    }
}

/// A text.
pub fn string(alloc: Global, text: &str) -> Result<Value, AllocError> {
    Ok(Value::String(String::from_str(alloc, text)?))
}

/// Data in its JSON form.
pub fn data(alloc: Global, told: &Data) -> Result<Value, AllocError> {
    unless_refused(told.to_json(alloc))
}

/// An object of one value.
pub fn named(
    alloc: Global,
    name: &str,
    value: Result<Value, AllocError>,
) -> Result<Value, AllocError> {
    let mut told = Told::new(alloc);
    told.put(name, value);
    told.into_value()
}

/// What is told of an item of a list.
pub trait Tell {
    fn tell(&self, alloc: Global) -> Result<Value, AllocError>;
}

impl Tell for u64 {
    fn tell(&self, _alloc: Global) -> Result<Value, AllocError> {
        Ok(Value::from(*self))
    }
}

impl Tell for Text {
    fn tell(&self, alloc: Global) -> Result<Value, AllocError> {
        string(alloc, self.as_str())
    }
}

impl Tell for Uuid {
    fn tell(&self, alloc: Global) -> Result<Value, AllocError> {
        id(alloc, *self)
    }
}

/// A list of what is told of each item.
pub fn list<T: Tell>(alloc: Global, items: &[T]) -> Result<Value, AllocError> {
    let mut list = Vec::new(alloc);
    for item in items {
        let told = item.tell(alloc)?;
        push(&mut list, told)?;
    }
    Ok(Value::Array(list))
}

/// Two values.
pub fn pair(alloc: Global, first: Value, second: Value) -> Result<Value, AllocError> {
    Ok(Value::Array(vec![in alloc; first, second]?))
}

/// The number that an id is, or its text where it is greater than a number of 64 bits.
pub fn id(alloc: Global, id: Uuid) -> Result<Value, AllocError> {
    match u64::try_from(id.as_u128()) {
        Ok(number) => Ok(Value::from(number)),
        Err(_) => Ok(Value::String(format!(in alloc; "{id}")?)),
    }
}
