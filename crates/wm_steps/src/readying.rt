//! How the entries of the works that are ready follow a step: what may come is put before the commit,
//! since it takes memory, and what isn't wanted is dropped after it. Where the commit fails, what has
//! come is dropped again.
ghost use Rattle.std.specs.List.{list_all, list_any, AllByRecursion};
ghost use Rattle.std.specs.Option.{option_copied};
ghost use Rattle.std.specs.Prelude.{◌≡◌, ◌≤◌, length, slice_get, None, Some, IfOk, IfSome, OnErr, OnOk};
ghost use Rattle.wm_collections.specs.Lists.{AllLater};
ghost use Rattle.wm_graph.specs.Nodes.{HasNode};
ghost use Rattle.wm_machine.specs.Input.{work_numbered};
ghost use Rattle.wm_machine.specs.Valid.{ArePriorSound, IsBefore, IsRecord};
ghost use Rattle.wm_ready.specs.Entries.{is_same};
ghost use Rattle.wm_changes.specs.Nodes.{nodes_of};
ghost use Rattle.wm_steps.specs.Readied.{are_put_back, are_replaced, comes, entry_of, if_free, is_left, is_left_by, is_left_undone, is_settled, is_waiting_as, ArePut, AreLeft, AreReady, IsPutSome};

use crate::rooms::class_number;
use std::alloc::{AllocError, Global};
use wm_changes::{Replacement, StepChange};
use wm_collections::Text;
use wm_conditions::signature;
use wm_graph::Graph;
use wm_machine::{Record, work_numbered};
use wm_ready::Ready;

/// The entries of those of these records that are ready. The graph has their nodes. Memory that is
/// refused is the only error.
pub fn ready_of(
    alloc: Global,
    classes: &[Text],
    graph: &Graph,
    works: &[Record],
) -> Result<Ready, AllocError>
    requires few { length classes.now ≤ 10000 }
    requires in_order { AllLater IsBefore works.now }
    requires records { AllByRecursion IsRecord works.now }
    requires sound { AllByRecursion (λ work. ArePriorSound works.now work.phase work.prior) works.now }
    requires nodes { graph.now ≡ nodes_of works.now }
    ensures { IfOk result (λ ready. AreReady classes.now works.now ready) }
{
    let mut ready = Ready::new(alloc);
    for work in works {
        if let Some(free) = if_free(graph, work) {
            put_waiting(&mut ready, classes, free)?;
        }
    }
    Ok(ready)
}

/// Puts the entries of the records in that come by a change and wait. Where memory is refused, some
/// are there.
pub fn prepare_ready(
    ready: &mut Ready,
    classes: &[Text],
    change: &StepChange,
) -> Result<(), AllocError>
    requires few { length classes.now ≤ 10000 }
    requires told { AllByRecursion (λ told. IsRecord told.work) change.now.told }
    requires replaced { AllByRecursion (λ replaced. IsRecord replaced.work) change.now.replaced }
    requires placed { AllByRecursion IsRecord change.now.placed }
    ensures ok { OnOk result (ArePut (comes classes.now change.now) ready.old ready.new) }
    ensures some { IsPutSome (comes classes.now change.now) ready.old ready.new }
{
    put_replaced(ready, classes, change.told.as_slice())?;
    put_replaced(ready, classes, change.replaced.as_slice())?;
    put_placed(ready, classes, change.placed.as_slice())
}

/// Drops the entries that a change leaves nobody to want: of these records, which were there before
/// it, and of those that came by it. The graph has their nodes after it. It takes no memory.
pub fn settle_ready(
    ready: &mut Ready,
    classes: &[Text],
    graph: &Graph,
    works: &[Record],
    change: &StepChange,
)
    requires few { length classes.now ≤ 10000 }
    requires in_order { AllLater IsBefore works.now }
    requires records { AllByRecursion IsRecord works.now }
    requires told { AllByRecursion (λ told. IsRecord told.work) change.now.told }
    requires replaced { AllByRecursion (λ replaced. IsRecord replaced.work) change.now.replaced }
    requires placed { AllByRecursion IsRecord change.now.placed }
    requires told_nodes { AllByRecursion (λ told. HasNode graph.now told.work.seq) change.now.told }
    requires replaced_nodes { AllByRecursion (λ replaced. HasNode graph.now replaced.work.seq) change.now.replaced }
    requires placed_nodes { AllByRecursion (λ work. HasNode graph.now work.seq) change.now.placed }
    ensures { AreLeft (is_left_by classes.now graph.now works.now change.now) ready.old ready.new }
{
    settle_replaced(ready, classes, graph, works, change.told.as_slice());
    settle_replaced(ready, classes, graph, works, change.replaced.as_slice());
    settle_removed(ready, classes, graph, works, change.removed.as_slice());
    settle_placed(ready, classes, graph, change.placed.as_slice());
}

/// Drops the entries that have come of a change, or of some of it: those that none of these records
/// wants, which are there without it. The graph has the nodes of these records. It takes no memory.
pub fn undo_ready(
    ready: &mut Ready,
    classes: &[Text],
    graph: &Graph,
    works: &[Record],
    change: &StepChange,
)
    requires few { length classes.now ≤ 10000 }
    requires records { AllByRecursion IsRecord works.now }
    requires nodes { AllByRecursion (λ work. HasNode graph.now work.seq) works.now }
    requires told { AllByRecursion (λ told. IsRecord told.work) change.now.told }
    requires replaced { AllByRecursion (λ replaced. IsRecord replaced.work) change.now.replaced }
    requires placed { AllByRecursion IsRecord change.now.placed }
    ensures { AreLeft (is_left_undone classes.now graph.now works.now change.now) ready.old ready.new }
{
    put_back(ready, classes, graph, works, change.told.as_slice());
    put_back(ready, classes, graph, works, change.replaced.as_slice());
    drop_placed(ready, classes, graph, change.placed.as_slice());
}

/// Puts the entry of a record in, where it waits.
fn put_waiting(ready: &mut Ready, classes: &[Text], work: &Record) -> Result<(), AllocError>
    requires few { length classes.now ≤ 10000 }
    requires record { IsRecord work.now }
    ensures ok { OnOk result (ArePut (λ entry. is_waiting_as classes.now entry work.now) ready.old ready.new) }
    ensures err { OnErr result (ready.new ≡ ready.old) }
{
    if work.phase.is_waiting() {
        let class = class_number(classes, work.request.class());
        let constraints = work.request.constraints();
        ready.put(work.due(), work.seq, signature(&constraints), class)?;
    }
    Ok(())
}

/// Puts the entries of those of these records in that wait.
fn put_replaced(
    ready: &mut Ready,
    classes: &[Text],
    replaced: &[Replacement],
) -> Result<(), AllocError>
    requires few { length classes.now ≤ 10000 }
    requires records { AllByRecursion (λ replaced. IsRecord replaced.work) replaced.now }
    ensures ok { OnOk result (ArePut (λ entry. list_any (λ r. is_waiting_as classes.now entry r.work) replaced.now)
        ready.old ready.new) }
    ensures some { IsPutSome (λ entry. list_any (λ r. is_waiting_as classes.now entry r.work) replaced.now)
        ready.old ready.new }
{
    for replacement in replaced {
        put_waiting(ready, classes, &replacement.work)?;
    }
    Ok(())
}

/// Puts the entries of those of these new records in that wait.
fn put_placed(ready: &mut Ready, classes: &[Text], placed: &[Record]) -> Result<(), AllocError>
    requires few { length classes.now ≤ 10000 }
    requires records { AllByRecursion IsRecord placed.now }
    ensures ok { OnOk result (ArePut (λ entry. list_any (is_waiting_as classes.now entry) placed.now)
        ready.old ready.new) }
    ensures some { IsPutSome (λ entry. list_any (is_waiting_as classes.now entry) placed.now) ready.old ready.new }
{
    for work in placed {
        put_waiting(ready, classes, work)?;
    }
    Ok(())
}

/// Whether two works have the same entry.
fn is_same_entry(classes: &[Text], one: &Record, other: &Record) -> bool
    requires few { length classes.now ≤ 10000 }
    requires one { IsRecord one.now }
    requires other { IsRecord other.now }
    ensures { result ≡ is_same (entry_of classes.now one.now) (entry_of classes.now other.now) }
{
    one.due() == other.due()
        && one.seq == other.seq
        && signature(&one.request.constraints()) == signature(&other.request.constraints())
        && class_number(classes, one.request.class())
            == class_number(classes, other.request.class())
}

/// Drops the entry of a work that waits, unless another one, where there is one, has the same. A work
/// that doesn't wait has none.
fn leave(ready: &mut Ready, classes: &[Text], work: &Record, other: Option<&Record>)
    requires few { length classes.now ≤ 10000 }
    requires record { IsRecord work.now }
    requires other { IfSome (option_copied other) IsRecord }
    ensures { AreLeft (is_left classes.now work.now (option_copied other.entry)) ready.old ready.new }
{
    if !work.phase.is_waiting() {
        return;
    }
    if let Some(other) = other {
        if is_same_entry(classes, work, other) {
            return;
        }
    }
    let class = class_number(classes, work.request.class());
    let constraints = work.request.constraints();
    ready.drop_entry(work.due(), work.seq, signature(&constraints), class);
}

/// Drops the entry of a work that waits, unless the work is free.
fn leave_unfree(ready: &mut Ready, classes: &[Text], work: &Record, free: Option<&Record>)
    requires few { length classes.now ≤ 10000 }
    requires record { IsRecord work.now }
    requires itself { IfSome (option_copied free) (λ one. one ≡ work.now) }
    ensures { AreLeft (is_left classes.now work.now (option_copied free.entry)) ready.old ready.new }
{
    if free.is_none() {
        leave(ready, classes, work, None);
    }
}

/// The record at an index, where there is one.
fn place(works: &[Record], index: usize) -> Option<&Record>
    ensures { option_copied result ≡ slice_get works.now index }
{
    works.get(index)
}

/// A work, where it waits and none of its prerequisites is unmet.
fn if_free<'a>(graph: &Graph, work: &'a Record) -> Option<&'a Record>
    requires { HasNode graph.now work.now.seq }
    ensures free { option_copied result ≡ if_free graph.now work.now }
    ensures itself { IfSome (option_copied result) (λ one. one ≡ work.now) }
{
    if work.phase.is_waiting() && graph.unmet(work.seq) == 0 {
        Some(work)
    } else {
        None
    }
}

/// Drops the entries of two records, of which the one gives way to the other, but for that of the
/// other where it is free.
fn settle(
    ready: &mut Ready,
    classes: &[Text],
    graph: &Graph,
    old: Option<&Record>,
    new: Option<&Record>,
)
    requires few { length classes.now ≤ 10000 }
    requires old { IfSome (option_copied old) IsRecord }
    requires new { IfSome (option_copied new) IsRecord }
    requires node { IfSome (option_copied new) (λ new. HasNode graph.now new.seq) }
    ensures { AreLeft (is_settled classes.now graph.now (option_copied old.entry) (option_copied new.entry)) ready.old ready.new }
{
    let free = match new {
        Some(new) => if_free(graph, new),
        None => None,
    };
    if let Some(old) = old {
        leave(ready, classes, old, free);
    }
    if let Some(new) = new {
        leave_unfree(ready, classes, new, free);
    }
}

/// Settles records that give way to those that are put in their places.
fn settle_replaced(
    ready: &mut Ready,
    classes: &[Text],
    graph: &Graph,
    works: &[Record],
    replaced: &[Replacement],
)
    requires few { length classes.now ≤ 10000 }
    requires records { AllByRecursion IsRecord works.now }
    requires replaced { AllByRecursion (λ replaced. IsRecord replaced.work) replaced.now }
    requires nodes { AllByRecursion (λ replaced. HasNode graph.now replaced.work.seq) replaced.now }
    ensures { AreLeft (are_replaced classes.now graph.now works.now replaced.now) ready.old ready.new }
{
    for replacement in replaced {
        let old = place(works, replacement.index);
        settle(ready, classes, graph, old, Some(&replacement.work));
    }
}

/// Settles records that are removed.
fn settle_removed(
    ready: &mut Ready,
    classes: &[Text],
    graph: &Graph,
    works: &[Record],
    numbers: &[u64],
)
    requires few { length classes.now ≤ 10000 }
    requires in_order { AllLater IsBefore works.now }
    requires records { AllByRecursion IsRecord works.now }
    ensures { AreLeft (λ entry. list_all (λ number. is_settled classes.now graph.now
        (work_numbered number works.now) None entry) numbers.now) ready.old ready.new }
{
    for number in numbers {
        let old = work_numbered(works, *number);
        settle(ready, classes, graph, old, None);
    }
}

/// Settles new records.
fn settle_placed(ready: &mut Ready, classes: &[Text], graph: &Graph, placed: &[Record])
    requires few { length classes.now ≤ 10000 }
    requires records { AllByRecursion IsRecord placed.now }
    requires nodes { AllByRecursion (λ work. HasNode graph.now work.seq) placed.now }
    ensures { AreLeft (λ entry. list_all (λ work. is_settled classes.now graph.now None (Some work) entry) placed.now)
        ready.old ready.new }
{
    for work in placed {
        settle(ready, classes, graph, None, Some(work));
    }
}

/// Settles records that were to be put in the places of these, and give way to them.
fn put_back(
    ready: &mut Ready,
    classes: &[Text],
    graph: &Graph,
    works: &[Record],
    replaced: &[Replacement],
)
    requires few { length classes.now ≤ 10000 }
    requires records { AllByRecursion IsRecord works.now }
    requires nodes { AllByRecursion (λ work. HasNode graph.now work.seq) works.now }
    requires replaced { AllByRecursion (λ replaced. IsRecord replaced.work) replaced.now }
    ensures { AreLeft (are_put_back classes.now graph.now works.now replaced.now) ready.old ready.new }
{
    for replacement in replaced {
        let old = place(works, replacement.index);
        settle(ready, classes, graph, Some(&replacement.work), old);
    }
}

/// Settles new records, which aren't placed.
fn drop_placed(ready: &mut Ready, classes: &[Text], graph: &Graph, placed: &[Record])
    requires few { length classes.now ≤ 10000 }
    requires records { AllByRecursion IsRecord placed.now }
    ensures { AreLeft (λ entry. list_all (λ work. is_settled classes.now graph.now (Some work) None entry) placed.now)
        ready.old ready.new }
{
    for work in placed {
        settle(ready, classes, graph, Some(work), None);
    }
}
