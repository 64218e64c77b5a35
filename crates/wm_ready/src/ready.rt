//! The entries of works that may start.
ghost use Rattle.std.specs.Prelude.{◌≡◌, ◌&&◌, ◌||◌, ◌≤◌, false, true, not, MatchOption, OnErr, OnOk, [], ◌<◌};
ghost use Rattle.wm_ready.specs.Entries.{has, is_later, is_same, is_startable, Entry, IsFirstMoment, IsFirstNumber, NonePasses};
ghost use Rattle.wm_ready.specs.Keys.{entries_of, AreKeys, AreParts};
ghost use Rattle.wm_ready.specs.Puts.{entry, IsDropped, IsPut};

use crate::keys::{Key, Part, Place, comes_first, first_of, is_first, least};
use std::alloc::{AllocError, Global};
use std::collections::{BTreeMap, BTreeSet};
use std::marker::Model;

/// The works that may start once they are due, their constraints are met and an instance of their
/// class is idle, each with its moment, its number, the signature of its constraints and the number
/// of its class. A contract sees it as the list of these entries.
#[derive(Debug, Drop)]
pub struct Ready {
    keys: BTreeSet<Key>,
    /// The parts that have keys, each with the place of its first one, so that the first of all is found
    /// by a look at the parts.
    parts: BTreeMap<Part, Place>,
}

impl Model for Ready {
    ghost use Rattle.std.specs.Prelude.{List};
    ghost use Rattle.wm_ready.specs.Entries.{Entry};
    ghost use Rattle.wm_ready.specs.Keys.{entries_of, AreKeys, AreParts};

    ghost Value = { List Entry };

    ghost view = { λ r. entries_of r.keys };

    ghost invariant = { λ r. AreKeys r.keys × AreParts r.keys r.parts };
}

/// The least moment above now, which isn't the last one, of a key whose signature's bit is set and
/// whose class isn't busy.
fn moment_after(
    keys: &BTreeSet<Key>,
    parts: &BTreeMap<Part, Place>,
    now: u64,
    met: u128,
    busy: &[u32],
) -> Option<u64>
    requires keys { AreKeys keys.now }
    requires parts { AreParts keys.now parts.now }
    requires before_end { now < 18446744073709551615 }
    ensures { MatchOption result (NonePasses (entries_of keys.now) (is_later now met busy.now))
        (IsFirstMoment (entries_of keys.now) (is_later now met busy.now)) }
{
    match least(keys, parts, now + 1, u64::MAX, met, busy) {
        Some(key) => Some(key.2),
        None => None,
    }
}

impl Ready {
    /// No entry, which takes no memory.
    pub fn new(alloc: Global) -> Ready
        ensures { result ≡ [] }
    {
        Ready {
            keys: BTreeSet::new(alloc),
            parts: BTreeMap::new(alloc),
        }
    }

    /// Adds an entry, where it isn't there. Where memory is refused, the entries are as they were.
    pub fn put(&mut self, due: u64, seq: u64, sig: u8, class: u32) -> Result<(), AllocError>
        requires signature { sig ≤ 79 }
        ensures ok { OnOk result (IsPut (entry due seq sig class) self.old self.new) }
        ensures err { OnErr result (self.new ≡ self.old) }
    {
        let (part, place) = ((class, sig), (due, seq));
        self.keys.insert((class, sig, due, seq))?;
        if !comes_first(&self.parts, &part, place) {
            return Ok(());
        }
        match self.parts.insert(part, place) {
            Ok(_before) => Ok(()),
            Err(_refused) => {
                self.keys.remove(&(class, sig, due, seq));
                Err(AllocError)
            }
        }
    }

    /// Takes an entry away, where it is there. It takes no memory.
    pub fn drop_entry(&mut self, due: u64, seq: u64, sig: u8, class: u32)
        ensures { IsDropped (entry due seq sig class) self.old self.new }
    {
        let part = (class, sig);
        self.keys.remove(&(class, sig, due, seq));
        if !is_first(&self.parts, &part, (due, seq)) {
            return;
        }
        match first_of(&self.keys, &part, 0) {
            Some(first) => {
                // the part is there, so it takes no memory
                let _kept = self.parts.insert(part, (first.2, first.3));
            }
            None => {
                self.parts.remove(&part);
            }
        }
    }

    /// The number of the entry with the least moment and number that is due, whose signature's bit
    /// is set and whose class isn't busy. It takes no memory.
    pub fn first(&self, now: u64, met: u128, busy: &[u32]) -> Option<u64>
        ensures { MatchOption result (NonePasses self.now (is_startable now met busy.now))
            (IsFirstNumber self.now (is_startable now met busy.now)) }
    {
        match least(&self.keys, &self.parts, 0, now, met, busy) {
            Some(key) => Some(key.3),
            None => None,
        }
    }

    /// The least moment above now of an entry whose signature's bit is set and whose class isn't
    /// busy. It takes no memory.
    pub fn wake(&self, now: u64, met: u128, busy: &[u32]) -> Option<u64>
        ensures { MatchOption result (NonePasses self.now (is_later now met busy.now))
            (IsFirstMoment self.now (is_later now met busy.now)) }
    {
        let (keys, parts) = (&self.keys, &self.parts);
        if now == u64::MAX {
            return None;
        }
        moment_after(keys, parts, now, met, busy)
    }
}
