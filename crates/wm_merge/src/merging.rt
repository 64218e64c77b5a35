//! What has grown of the entries so far.
ghost use Rattle.std.specs.Prelude.{◌≡◌, ◌<◌, fold, length, IfOk, IfErr, OnOk};
ghost use Rattle.wm_data.specs.Entries.{IsFoundAt, IsMissingAt};
ghost use Rattle.wm_merge.specs.Growing.{differs, first_value, grown_with, next_value, noted, nothing_grown};
ghost use Rattle.wm_merge.specs.Merged.{answer_of, IsMergeFaultOf};

use crate::element::{ElementType, append};
use crate::fault::MergeFault;
use std::alloc::{AllocError, Global};
use std::marker::Model;
use wm_collections::{Items, Replica, Text};
use wm_data::search::search;
use wm_data::{Data, DataEntry, MAX_DATA_BYTES, Merger, Value, entries_size};

/// The entries that have grown, in the order of their keys, and the least key with a conflict.
#[derive(Debug, Drop)]
pub(crate) struct Merging {
    entries: Vec<DataEntry>,
    conflict: Option<Text>,
}

impl Model for Merging {
    ghost use Rattle.wm_merge.specs.Growing.{Grown};

    ghost Value = { Grown };

    ghost use Rattle.wm_data.specs.Size.{AreOrdered};

    ghost view = { λ m. record { entries = m.entries.items; conflict = m.conflict } };

    ghost invariant = { λ m. AreOrdered m.entries.items };
}

impl Merging {
    /// Nothing. It takes no memory.
    pub(crate) fn new(alloc: Global) -> Merging
        ensures { result ≡ nothing_grown }
    {
        Merging {
            entries: Vec::new(alloc),
            conflict: None,
        }
    }

    /// Takes the entries of an input in.
    pub(crate) fn add_input(
        &mut self,
        alloc: Global,
        how: Merger,
        input: &Data,
    ) -> Result<(), AllocError>
        ensures { OnOk result (self.new ≡ fold (grown_with how) self.old input.now) }
    {
        for entry in input.entries() {
            self.add(alloc, how, entry)?;
        }
        Ok(())
    }

    fn add(&mut self, alloc: Global, how: Merger, entry: &DataEntry) -> Result<(), AllocError>
        requires { 0 < length entry.now.key }
        ensures { OnOk result (self.new ≡ grown_with how self.old entry.now) }
    {
        match search(self.entries.as_slice(), entry.key.as_str()) {
            Ok(index) => self.grow(alloc, how, index, entry),
            Err(index) => self.insert(alloc, how, index, entry),
        }
    }

    /// Takes an entry in whose key is there.
    fn grow(
        &mut self,
        alloc: Global,
        how: Merger,
        index: usize,
        entry: &DataEntry,
    ) -> Result<(), AllocError>
        requires { IsFoundAt entry.now.key self.old.entries index }
        ensures { OnOk result (self.new ≡ grown_with how self.old entry.now) }
    {
        let conflicts = differs(how, &self.entries[index].value, &entry.value);
        note(alloc, &mut self.conflict, conflicts, &entry.key)?;
        grow_entry(alloc, how, &mut self.entries[index], entry)?;
        Ok(())
    }

    /// Takes an entry in whose key isn't there, between those before its key and those after.
    fn insert(
        &mut self,
        alloc: Global,
        how: Merger,
        index: usize,
        entry: &DataEntry,
    ) -> Result<(), AllocError>
        requires named { 0 < length entry.now.key }
        requires missing { IsMissingAt entry.now.key self.old.entries index }
        ensures { OnOk result (self.new ≡ grown_with how self.old entry.now) }
    {
        let first = first_entry(alloc, how, entry)?;
        self.entries.insert(index, first)?;
        Ok(())
    }

    /// The Data of what has grown.
    pub(crate) fn build(self) -> Result<Data, MergeFault>
        ensures ok { IfOk result (λ built. answer_of self.conflict self.entries ≡ Ok built) }
        ensures err { IfErr result (IsMergeFaultOf (answer_of self.conflict self.entries)) }
    {
        let Merging { entries, conflict } = self;
        if let Some(key) = conflict {
            return Err(MergeFault::Conflict { key });
        }
        let size = entries_size(entries.as_slice())?;
        if size > MAX_DATA_BYTES {
            return Err(MergeFault::TooLarge { size });
        }
        let alloc = *entries.allocator();
        Ok(Data::from_entries(alloc, Items::from_vec(entries), size)?)
    }
}

/// Whether a value is of another type than what has grown under its key, where the types count.
fn differs(how: Merger, grown: &Value, value: &Value) -> bool
    ensures { result ≡ differs how grown.now value.now }
{
    match how {
        Merger::Overwriting => false,
        Merger::ArrayCreating => !ElementType::of(grown).is_same(ElementType::of(value)),
    }
}

/// Keeps the least key with a conflict.
fn note(
    alloc: Global,
    conflict: &mut Option<Text>,
    conflicts: bool,
    key: &Text,
) -> Result<(), AllocError>
    ensures { OnOk result (conflict.new ≡ noted conflicts key.now conflict.old) }
{
    let is_least = match conflict {
        Some(least) => key.as_str() < least.as_str(),
        None => true,
    };
    if conflicts && is_least {
        *conflict = Some(key.replica(alloc)?);
    }
    Ok(())
}

/// An entry, grown with another of its key.
fn grow_entry(
    alloc: Global,
    how: Merger,
    grown: &mut DataEntry,
    entry: &DataEntry,
) -> Result<(), AllocError>
    ensures key { grown.new.key ≡ grown.old.key }
    ensures value { OnOk result (grown.new.value ≡ next_value how grown.old.value entry.now.value) }
{
    match how {
        Merger::Overwriting => {
            grown.value = entry.value.replica(alloc)?;
            Ok(())
        }
        Merger::ArrayCreating => append(alloc, &mut grown.value, &entry.value),
    }
}

/// The first entry of a key.
fn first_entry(alloc: Global, how: Merger, entry: &DataEntry) -> Result<DataEntry, AllocError>
    ensures { IfOk result (λ first. first ≡ record { key = entry.now.key; value = first_value how entry.now.value }) }
{
    Ok(DataEntry {
        key: entry.key.replica(alloc)?,
        value: first_value(alloc, how, &entry.value)?,
    })
}

fn first_value(alloc: Global, how: Merger, value: &Value) -> Result<Value, AllocError>
    ensures { IfOk result (λ first. first ≡ first_value how value.now) }
{
    match how {
        Merger::Overwriting => value.replica(alloc),
        Merger::ArrayCreating => {
            let mut array = ElementType::of(value).empty_array(alloc);
            append(alloc, &mut array, value)?;
            Ok(array)
        }
    }
}
