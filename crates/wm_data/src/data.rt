//! Data: entries in the order of their keys, of a limited size.
ghost use Rattle.std.specs.Prelude.{◌≡◌, ◌≤◌, [], length, ◌==◌, option_map, Decides, IfOk, IfErr};
ghost use Rattle.std.specs.Cmp.Lexicographic.{pointwise};
ghost use Rattle.wm_data.specs.Entries.{value_at};
ghost use Rattle.wm_data.specs.InType.{AreInType};
ghost use Rattle.wm_data.specs.Size.{size_of, AreOrdered, IsData};

use crate::fault::DataFault;
use crate::search::search;
use crate::value::Value;
use std::alloc::{AllocError, Global};
use std::marker::Model;
use wm_collections::{Items, Replica, Shared, Text};

/// The bytes of Data without an entry.
pub(crate) const EMPTY_SIZE: u64 = 2;

/// A key and its value.
#[derive(Debug, Drop, PartialEq, Eq)]
pub struct DataEntry {
    pub key: Text,
    pub value: Value,
}

impl Replica for DataEntry {
    fn replica(&self, alloc: Global) -> Result<DataEntry, AllocError> {
        Ok(DataEntry {
            key: self.key.replica(alloc)?,
            value: self.value.replica(alloc)?,
        })
    }
}

/// A map from keys to values, of at most 10,240 bytes. A contract sees it as the list of its
/// entries, in ascending order of their keys. Its copies share one list of entries.
#[derive(Debug, Drop)]
pub struct Data {
    /// None where there is no entry.
    entries: Option<Shared<Items<DataEntry>>>,
    /// The bytes of the entries.
    size: u64,
}

impl Model for Data {
    ghost use Rattle.std.specs.Prelude.{List};
    ghost use Rattle.wm_data.specs.declared.data.DataEntry.{DataEntry};

    ghost Value = { List DataEntry };

    ghost use Rattle.wm_data.specs.Entries.{entries_in, IsKept};

    ghost view = { λ d. entries_in d.entries };

    ghost invariant = { λ d. IsKept (entries_in d.entries) d.size };
}

impl PartialEq for Data {
    ghost use Rattle.std.specs.Cmp.Lexicographic.{lists_per, pointwise};
    ghost use Rattle.wm_data.specs.contracts.data.DataEntryPartialEq.TheImpl.Laws.{laws-law};

    ghost eq = { pointwise ⟦<DataEntry as PartialEq>⟧.eq };

    ghost laws = { lists_per laws-law };

    /// Whether they have the same entries.
    fn eq(&self, other: &Data) -> bool
        ensures eq { result ≡ pointwise ⟦<DataEntry as PartialEq>⟧.eq self.now other.now }
        ensures decides { Decides result (self.now ≡ other.now) }
    {
        *self.entries() == *other.entries()
    }
}

impl Eq for Data {
    ghost use Rattle.std.specs.Cmp.Lexicographic.{lists_equiv};
    ghost use Rattle.wm_data.specs.contracts.data.DataEntryEq.TheImpl.Laws.{laws-law};

    ghost laws = { lists_equiv laws-law };
}

/// A list that holds no more memory than its elements take, where a smaller block is to be had.
fn fitted<T: Drop>(items: Items<T>) -> Items<T>
    ensures { result ≡ items }
{
    let mut elements = items.into_vec();
    elements.shrink_to_fit();
    Items::from_vec(elements)
}

impl Data {
    /// No entry. It takes no memory.
    pub fn empty() -> Data
        ensures { result ≡ [] }
    {
        Data {
            entries: None,
            size: EMPTY_SIZE,
        }
    }

    /// Entries in the order of their keys, of a size within the limit. Memory that is refused is the
    /// only error, and none is taken where there is no entry.
    pub fn from_entries(
        alloc: Global,
        entries: Items<DataEntry>,
        size: u64,
    ) -> Result<Data, AllocError>
        requires ordered { AreOrdered entries }
        requires within { size_of entries ≤ 10240 }
        requires sized { size ≡ size_of entries }
        ensures { IfOk result (λ made. made ≡ entries) }
    {
        read_entries(entries.as_slice());
        if entries.is_empty() {
            return Ok(Data::empty());
        }
        let entries = fitted(entries);
        Ok(Data {
            entries: Some(Shared::new(alloc, entries)?),
            size,
        })
    }

    /// Whether it has no entry.
    pub fn is_empty(&self) -> bool
        ensures { result ≡ (length self.now == 0) }
    {
        self.entries().is_empty()
    }

    /// Its bytes.
    pub fn size(&self) -> u64
        ensures size { result ≡ size_of self.now }
        ensures is_data { IsData self.now }
    {
        self.size
    }

    /// The entries, in ascending order of their keys.
    pub fn entries(&self) -> &[DataEntry]
        ensures entries { result.now ≡ self.now }
        ensures is_data { IsData self.now }
    {
        match &self.entries {
            Some(entries) => entries.value().as_slice(),
            None => &[],
        }
    }

    /// The value of a key, found without a look at every entry.
    pub fn get(&self, key: &str) -> Option<&Value>
        ensures { option_map (λ value. value.now) result ≡ value_at key.now self.now }
    {
        let entries = self.entries();
        match search(entries, key) {
            Ok(index) => Some(&entries[index].value),
            Err(_) => None,
        }
    }

    /// A copy, which shares the entries.
    pub fn copy(&self, alloc: Global) -> Result<Data, DataFault>
        ensures ok { IfOk result (λ copy. copy ≡ self.now) }
        ensures err { IfErr result (λ fault. fault ≡ DataFault.Memory) }
    {
        Ok(self.replica(alloc)?)
    }
}

/// Reads the numbers of entries, which are then known to be in their types.
fn read_entries(entries: &[DataEntry])
    ensures { AreInType entries.now }
{
    for entry in entries {
        entry.value.read();
    }
}

impl Replica for Data {
    fn replica(&self, alloc: Global) -> Result<Data, AllocError> {
        Ok(Data {
            entries: self.entries.replica(alloc)?,
            size: self.size,
        })
    }
}
