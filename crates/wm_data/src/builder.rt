//! Data that is put together entry by entry, and its greatest size.
ghost use Rattle.std.specs.Prelude.{◌≡◌, ◌<◌, ◌≤◌, [], length, Ok, IfOk, IfErr, OnOk, OnErr, string_bytes};
ghost use Rattle.wm_data.specs.Entries.{built_of, put_of, with_entry, IsFaultOf, IsFoundAt, IsMissingAt};
ghost use Rattle.wm_data.specs.declared.data.DataEntry.{DataEntry};

use crate::data::{Data, DataEntry, EMPTY_SIZE};
use crate::fault::DataFault;
use crate::search::search;
use crate::size::{size_added, size_exchanged};
use crate::value::Value;
use std::alloc::{AllocError, Global};
use std::marker::Model;
use wm_collections::{Items, Text};

/// The most bytes that Data has.
pub const MAX_DATA_BYTES: u64 = 10_240;

/// Data that is being put together. A contract sees it as the list of its entries, in ascending
/// order of their keys.
#[derive(Debug, Drop)]
pub struct DataBuilder {
    entries: Vec<DataEntry>,
    /// The bytes of the entries.
    size: u64,
}

impl Model for DataBuilder {
    ghost use Rattle.std.specs.Prelude.{List};
    ghost use Rattle.wm_data.specs.declared.data.DataEntry.{DataEntry};

    ghost Value = { List DataEntry };

    ghost use Rattle.wm_data.specs.Entries.{IsBuilding};

    ghost view = { λ b. b.entries.items };

    ghost invariant = { λ b. IsBuilding b.entries.items b.size };
}

impl DataBuilder {
    /// No entry. It takes no memory.
    pub fn new(alloc: Global) -> DataBuilder
        ensures { result ≡ [] }
    {
        DataBuilder {
            entries: Vec::new(alloc),
            size: EMPTY_SIZE,
        }
    }

    /// Puts a value under a key, in the place of one that is there. After a refusal the entries are
    /// as they were.
    pub fn put(&mut self, key: String, value: Value) -> Result<(), DataFault>
        ensures ok { OnOk result
            (put_of (record { key = string_bytes key; value = value }) self.old ≡ Ok self.new) }
        ensures err { IfErr result
            (IsFaultOf (put_of (record { key = string_bytes key; value = value }) self.old)) }
        ensures unchanged { OnErr result (self.new ≡ self.old) }
    {
        let entry = DataEntry {
            key: Text::from_string(key),
            value,
        };
        if entry.key.is_empty() {
            return Err(DataFault::EmptyKey);
        }
        Ok(self.put_entry(entry)?)
    }

    fn put_entry(&mut self, entry: DataEntry) -> Result<(), AllocError>
        requires { 0 < length entry.key }
        ensures ok { OnOk result (self.new ≡ with_entry entry self.old) }
        ensures err { OnErr result (self.new ≡ self.old) }
    {
        match search(self.entries.as_slice(), entry.key.as_str()) {
            Ok(index) => self.replace(index, entry),
            Err(index) => self.insert(index, entry),
        }
    }

    /// Puts an entry in the place of the one that has its key.
    fn replace(&mut self, index: usize, entry: DataEntry) -> Result<(), AllocError>
        requires named { 0 < length entry.key }
        requires found { IsFoundAt entry.key self.old index }
        ensures ok { OnOk result (self.new ≡ with_entry entry self.old) }
        ensures err { OnErr result (self.new ≡ self.old) }
    {
        let size = size_exchanged(self.size, &self.entries[index], &entry)?;
        self.entries[index] = entry;
        self.size = size;
        Ok(())
    }

    /// Puts an entry between those before its key and those after.
    fn insert(&mut self, index: usize, entry: DataEntry) -> Result<(), AllocError>
        requires named { 0 < length entry.key }
        requires missing { IsMissingAt entry.key self.old index }
        ensures ok { OnOk result (self.new ≡ with_entry entry self.old) }
        ensures err { OnErr result (self.new ≡ self.old) }
    {
        let size = size_added(self.size, &entry)?;
        self.entries.insert(index, entry)?;
        self.size = size;
        Ok(())
    }

    /// The Data of the entries.
    pub fn build(self) -> Result<Data, DataFault>
        ensures ok { IfOk result (λ built. built_of self ≡ Ok built) }
        ensures err { IfErr result (IsFaultOf (built_of self)) }
    {
        if self.size > MAX_DATA_BYTES {
            return Err(DataFault::TooLarge { size: self.size });
        }
        let alloc = *self.entries.allocator();
        Ok(Data::from_entries(alloc, Items::from_vec(self.entries), self.size)?)
    }
}
