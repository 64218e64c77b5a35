//! How what a step needs is made ready and stored: first all that takes memory, and then the commit of
//! the rows.
ghost use Rattle.std.specs.List.{AllByRecursion};
ghost use Rattle.std.specs.Prelude.{◌≡◌, ◌≢◌, ◌+◌, ◌<◌, ◌≤◌, ◌++◌, [], length, map, take, vec_len, vec_capacity, Err, OnErr, OnOk};
ghost use Rattle.wm_changes.specs.StepChanges.{new_observers};
ghost use Rattle.wm_keeper.specs.Keeper.{AreOfDifferentNumbers};
ghost use Rattle.wm_keeper.specs.declared.keeper.KeepFault.TheVariants as KeepFault;
ghost use Rattle.wm_machine.specs.Valid.{IsRecord};
ghost use Rattle.wm_steps.specs.Entries.{prepared_entries, AreEntriesOf, IsFollowable};
ghost use Rattle.wm_steps.specs.Following.{placed_node, AreAddable};
ghost use Rattle.wm_steps.specs.Readied.{comes, ArePut, IsPutSome};
ghost use Rattle.wm_steps.specs.Stored.{IsStored};

use crate::entries::{prepare_entries, undo_entries};
use crate::follow::add_nodes;
use crate::startable::Startable;
use wm_changes::StepChange;
use wm_changes::lists::{Lists, new_observers};
use wm_graph::Graph;
use wm_index::Index;
use wm_keeper::{Change, KeepFault, Keeper};

/// Commits changes of rows, in one commit, and none where there are none. The keeper's fault is the
/// only error.
pub fn commit<K: Keeper>(keeper: &mut K, changes: &[Change]) -> Result<(), KeepFault>
    requires { AreOfDifferentNumbers changes.now }
    ensures stored { IsStored changes.now result (K.store keeper.old) (K.store keeper.new) }
    ensures untouched_keeper { changes.now ≡ [] → keeper.new ≡ keeper.old }
    ensures some { OnErr result (changes.now ≢ []) }
{
    if changes.is_empty() {
        return Ok(());
    }
    keeper.commit(changes)
}

/// Takes all memory that a change needs, and then commits its rows. Memory that is refused and the
/// keeper's fault are the only errors. After one the index has the entries of the works still, while
/// nodes and entries of works that are ready may be there that come by the change.
pub(crate) fn store<K: Keeper>(
    lists: &mut Lists,
    graph: &mut Graph,
    index: &mut Index,
    startable: &mut Startable,
    change: &StepChange,
    changes: &[Change],
    keeper: &mut K,
) -> Result<(), KeepFault>
    requires few_classes { length startable.old.classes ≤ 10000 }
    requires told_records { AllByRecursion (λ told. IsRecord told.work) change.now.told }
    requires replaced_records { AllByRecursion (λ replaced. IsRecord replaced.work) change.now.replaced }
    requires placed_records { AllByRecursion IsRecord change.now.placed }
    requires apart { AreOfDifferentNumbers changes.now }
    requires addable { AreAddable graph.old (map placed_node change.now.placed) }
    requires entries { AreEntriesOf lists.old.works.items index.old }
    requires follows { IsFollowable lists.old.works.items change.now }
    ensures works { lists.new.works.items ≡ lists.old.works.items }
    ensures runs { lists.new.runs.items ≡ lists.old.runs.items }
    ensures observers { lists.new.observers.items ≡ lists.old.observers.items }
    ensures works_room { OnOk result (vec_len lists.new.works + length change.now.placed ≤ vec_capacity lists.new.works) }
    ensures run_room { OnOk result (vec_len lists.new.runs < vec_capacity lists.new.runs) }
    ensures observer_room { OnOk result (vec_len lists.new.observers + new_observers change.now.setting
        ≤ vec_capacity lists.new.observers) }
    ensures nodes { OnOk result (graph.new ≡ graph.old ++ map placed_node change.now.placed) }
    ensures first_nodes { take (length graph.old) graph.new ≡ graph.old }
    ensures ready { OnOk result (ArePut (comes startable.old.classes change.now) startable.old.ready startable.new.ready) }
    ensures ready_some { IsPutSome (comes startable.old.classes change.now) startable.old.ready startable.new.ready }
    ensures rooms { startable.new ≡ record startable.old { ready = startable.new.ready } }
    ensures entries { OnOk result (index.new ≡ prepared_entries change.now index.old) }
    ensures entries_err { OnErr result (AreEntriesOf lists.old.works.items index.new) }
    ensures stored { IsStored changes.now result (K.store keeper.old) (K.store keeper.new) }
    ensures untouched_keeper { changes.now ≡ [] → keeper.new ≡ keeper.old }
    ensures no_keeper_fault { changes.now ≡ [] → result ≢ Err KeepFault.Failed }
{
    lists.reserve(change.placed.len(), new_observers(&change.setting))?;
    add_nodes(graph, change.placed.as_slice())?;
    startable.prepare(change)?;
    prepare_entries(index, lists.works.as_slice(), change)?;
    match commit(keeper, changes) {
        Ok(()) => Ok(()),
        Err(fault) => {
            undo_entries(index, lists.works.as_slice(), change);
            Err(fault)
        }
    }
}
