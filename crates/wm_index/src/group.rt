//! The numbers of the works that have one text.
ghost use Rattle.std.specs.Prelude.{◌≡◌, ◌==◌, ◌&&◌, ◌||◌, ◌∷◌, ℕ, [], false, not, IfOk, OnErr, OnOk};
ghost use Rattle.wm_collections.specs.Lists.{is_among, AllLater, NumbersAscend};
ghost use Rattle.wm_index.specs.Groups.{is_just};

use std::alloc::{AllocError, Global};
use std::marker::Model;

/// The numbers of the works that have one text, ascending. There is at least one. A contract sees
/// it as their list.
#[derive(Debug, Drop)]
pub struct Group {
    numbers: Vec<u64>,
}

impl Model for Group {
    ghost use Rattle.std.specs.Prelude.{ℕ, List};
    ghost use Rattle.wm_index.specs.Groups.{IsGroup};

    ghost Value = { List ℕ };

    ghost view = { λ g. g.numbers.items };

    ghost invariant = { λ g. IsGroup g.numbers.items };
}

impl Group {
    /// The group of one work.
    pub(crate) fn of_one(alloc: Global, seq: u64) -> Result<Group, AllocError>
        ensures { IfOk result (λ group. group ≡ seq ∷ []) }
    {
        Ok(Group {
            numbers: Vec::from_slice(alloc, &[seq])?,
        })
    }

    pub(crate) fn as_slice(&self) -> &[u64]
        ensures numbers { result.now ≡ self.now }
        ensures ascending { NumbersAscend self.now }
    {
        self.numbers.as_slice()
    }

    /// Whether this is the only number.
    pub(crate) fn is_just(&self, seq: u64) -> bool
        ensures { result ≡ is_just seq self.now }
    {
        self.numbers.len() == 1 && self.numbers[0] == seq
    }

    /// Adds a number, where it isn't there. Where memory is refused, the group is as it was.
    pub(crate) fn insert(&mut self, seq: u64) -> Result<(), AllocError>
        ensures ok { OnOk result ((number : ℕ) → is_among self.new number
            ≡ (is_among self.old number || seq == number)) }
        ensures err { OnErr result (self.new ≡ self.old) }
    {
        if let Err(place) = self.numbers.binary_search(&seq) {
            self.numbers.insert(place, seq)?;
        }
        Ok(())
    }

    /// Takes a number away, which isn't the only one. It takes no memory.
    pub(crate) fn remove(&mut self, seq: u64)
        requires others { is_just seq self.old ≡ false }
        ensures { (number : ℕ) → is_among self.new number
            ≡ (is_among self.old number && not (seq == number)) }
    {
        if let Ok(place) = self.numbers.binary_search(&seq) {
            self.numbers.remove(place);
        }
    }
}
