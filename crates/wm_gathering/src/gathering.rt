//! The keeper that gathers.
ghost use Rattle.std.specs.Prelude.{◌≡◌, ◌≢◌, ◌↔◌, [], Err, IfSome, IsTrue, OnOk, OnErr};
ghost use Rattle.wm_keeper.specs.Keeper.{Ascends, AreOfDifferentNumbers, KeepCause};
ghost use Rattle.wm_keeper.specs.Store.{IsAtMost, IsCommitted, IsNotCommitted, TellsOn};
ghost use Rattle.wm_gathering.specs.Gathering.{store_of};

use crate::waiting::Waiting;
use std::alloc::Global;
use std::marker::Model;
use wm_keeper::{Change, KeepFault, Keeper, Row};

/// A keeper of what another one keeps, which gathers the changes that are committed to it until they
/// are flushed. A contract sees the inner keeper and the changes that wait, at most one of a number.
///
/// It tells the rows that the inner keeper tells, with the waiting changes made. It doesn't tell what
/// a crash may leave: that is what the inner keeper tells, which has nothing of what waits.
#[derive(Drop)]
pub struct Gathering<K: Keeper> {
    inner: K,
    waiting: Waiting,
}

impl<K: Keeper> Model for Gathering<K> {
    ghost use Rattle.std.specs.Prelude.{IfSome};
    ghost use Rattle.wm_keeper.specs.Keeper.{Ascends};
    ghost use Rattle.wm_gathering.specs.Gathering.{GatheringState};

    ghost Value = { GatheringState K };

    ghost view = { λ gathering. record { inner = gathering.inner; waiting = gathering.waiting } };

    // The rows of the inner keeper ascend, where it tells them.
    ghost invariant = { λ gathering. IfSome (K.store gathering.inner).rows Ascends };
}

impl<K: Keeper> Gathering<K> {
    /// A keeper over this one, whose rows ascend, as they do once they were loaded. Nothing waits. It
    /// takes no memory.
    pub fn new(alloc: Global, inner: K) -> Gathering<K>
        requires ascending { IfSome (K.store inner).rows Ascends }
        ensures { result ≡ record { inner = inner; waiting = [] } }
    {
        Gathering {
            inner,
            waiting: Waiting::new(alloc),
        }
    }

    /// The inner keeper, which has nothing of what waits.
    pub fn inner(&self) -> &K
        ensures inner { result.now ≡ self.now.inner }
        ensures ascending { IfSome (K.store self.now.inner).rows Ascends }
    {
        &self.inner
    }

    /// The changes that wait.
    pub fn waiting(&self) -> &[Change]
        ensures waiting { result.now ≡ self.now.waiting }
        ensures different { AreOfDifferentNumbers self.now.waiting }
    {
        self.waiting.as_slice()
    }

    /// Commits all that waits to the inner keeper, in one commit, and nothing where nothing waits. Its
    /// fault is the only error, after which all waits still.
    pub fn flush(&mut self) -> Result<(), KeepFault>
        ensures none { self.old.waiting ≡ [] → self.new ≡ self.old }
        ensures none_fails { OnErr result (self.old.waiting ≢ []) }
        ensures committed { self.old.waiting ≢ [] → OnOk result (IsCommitted self.old.waiting (K.store self.old.inner) (K.store self.new.inner)) }
        ensures refused { OnErr result (IsNotCommitted self.old.waiting (K.store self.old.inner) (K.store self.new.inner)) }
        ensures over { OnOk result (self.new.waiting ≡ []) }
        ensures waits { OnErr result (self.new.waiting ≡ self.old.waiting) }
        ensures kept { OnOk result (IsAtMost (store_of K.store self.old).rows (K.store self.new.inner).rows) }
        ensures rows { IsAtMost (store_of K.store self.old).rows (store_of K.store self.new).rows }
        ensures tells_on { TellsOn (K.store self.old.inner) (K.store self.new.inner) }
        ensures gathered_tells_on { TellsOn (store_of K.store self.old) (store_of K.store self.new) }
        ensures cause { KeepCause result (K.store self.old.inner).faults (K.store self.new.inner).faults }
    {
        if self.waiting.is_empty() {
            return Ok(());
        }
        self.inner.commit(self.waiting.as_slice())?;
        self.waiting.clear();
        Ok(())
    }

    /// Gives the inner keeper back. What waits is let go.
    pub fn into_inner(self) -> K
        ensures { result ≡ self.inner }
    {
        self.inner
    }
}

impl<K: Keeper> Keeper for Gathering<K> {
    ghost use Rattle.std.specs.Prelude.{Some, IfOk, IsOkUnless};
    ghost use Rattle.wm_keeper.specs.Keeper.{Ascends, AreOfDifferentNumbers, KeepCause};
    ghost use Rattle.wm_keeper.specs.Store.{IsAtMost, IsCommitted, IsLoaded, IsNotCommitted, IsStoreKept, KeepsTelling};
    ghost use Rattle.wm_gathering.specs.Gathering.{store_of, AreMerged};

    ghost store = { store_of K.store };

    /// The rows that the inner keeper loads, where nothing waits. Where something does, `Memory` is
    /// answered, and the inner keeper isn't called.
    fn load(&mut self, name: &str) -> Result<Vec<Row>, KeepFault>
        ensures rows { IfOk result (λ rows. IsLoaded rows.items (store_of K.store self.old) (store_of K.store self.new)) }
        ensures ascending { IfSome (store_of K.store self.old).rows Ascends }
        ensures kept { IsStoreKept (store_of K.store self.old) (store_of K.store self.new) }
        ensures name { OnOk result (IsAtMost (Some name.now) (store_of K.store self.new).name) }
        ensures same_name { OnErr result (IsAtMost (store_of K.store self.old).name (store_of K.store self.new).name) }
        ensures telling { KeepsTelling (store_of K.store self.old) (store_of K.store self.new) }
        ensures cause { KeepCause result (store_of K.store self.old).faults (store_of K.store self.new).faults }

        ensures waiting { self.new.waiting ≡ self.old.waiting }
        ensures waits { self.old.waiting ≢ [] → result ≡ Err KeepFault.Memory }
        ensures uncalled { self.old.waiting ≢ [] → self.new ≡ self.old }
    {
        if !self.waiting.is_empty() {
            return Err(KeepFault::Memory);
        }
        self.inner.load(name)
    }

    /// Gathers the changes, each in place of one of its number that waits. The inner keeper isn't
    /// called, and memory that is refused is the only error, after which all is as it was.
    fn commit(&mut self, changes: &[Change]) -> Result<(), KeepFault>
        requires { AreOfDifferentNumbers changes.now }
        ensures ok { OnOk result (IsCommitted changes.now (store_of K.store self.old) (store_of K.store self.new)) }
        ensures err { OnErr result (IsNotCommitted changes.now (store_of K.store self.old) (store_of K.store self.new)) }
        ensures same_name { IsAtMost (store_of K.store self.old).name (store_of K.store self.new).name }
        ensures telling { KeepsTelling (store_of K.store self.old) (store_of K.store self.new) }
        ensures cause { KeepCause result (store_of K.store self.old).faults (store_of K.store self.new).faults }

        ensures merged { OnOk result (AreMerged changes.now self.old.waiting self.new.waiting) }
        ensures inner { self.new.inner ≡ self.old.inner }
        ensures waits { OnErr result (self.new.waiting ≡ self.old.waiting) }
        ensures memory_only { IsOkUnless result KeepFault.Memory }
    {
        self.waiting.gather(changes)?;
        Ok(())
    }
}
