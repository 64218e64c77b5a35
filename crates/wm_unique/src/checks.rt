//! The checks of a batch that is placed, in their order, over the records that it names alone.
ghost use Rattle.std.specs.List.{list_any};
ghost use Rattle.std.specs.Option.{option_copied};
ghost use Rattle.std.specs.Prelude.{◌≡◌, ◌+◌, ◌^◌, ◌≤◌, ◌&&◌, [], ◌∷◌, filter, find, if◌then◌else◌, is_some, length, nat_lt, None, not, option_map, Some};
ghost use Rattle.std.specs.Str.{bytes_eq};
ghost use Rattle.wm_collections.specs.Lists.{AllLater, is_among};
ghost use Rattle.wm_machine.specs.Cancelled.{is_stored};
ghost use Rattle.wm_machine.specs.Enqueued.{count_prior, first_refusal, first_unknown, is_stored_periodic, no_such_prerequisite, periodic_in_chain, refusal_of_placing, too_many_after, without};
ghost use Rattle.wm_machine.specs.Group.{numbers_in};
ghost use Rattle.wm_machine.specs.Valid.{IsBefore};
ghost use Rattle.wm_machine.specs.declared.state.State.{State};
ghost use Rattle.wm_request.specs.Batches.{has_id, ids_of};
ghost use Rattle.wm_unique.specs.Plans.{AreNumbersOf, grouped, is_named_by, numbered_passes, placing_by};

use crate::plans::GroupPlan;
use uuid::Uuid;
use wm_collections::is_among;
use wm_machine::{NUMBERS_END, Record, Refusal, work_numbered};
use wm_request::{Batch, Node, has_work};

/// The most records that a state has.
const MAX_WORKS: usize = 100_000;

/// The most prerequisites that a work has.
const MAX_PREREQUISITES: usize = 100;

/// So many records and the batch together are too many.
fn too_many_works(count: usize, batch: &[Node]) -> Option<Refusal>
    requires { count ≤ 100000 }
    ensures { result ≡ (if nat_lt 100000 (count + length batch.now)
        then Some (Refusal.TooManyWorks count) else None) }
{
    if batch.len() > MAX_WORKS - count {
        Some(Refusal::TooManyWorks {
            count: count as u64,
        })
    } else {
        None
    }
}

/// There aren't numbers for the batch from the next one on.
fn numbers_spent(next: u64, batch: &[Node]) -> Option<Refusal>
    requires { next ≤ 2 ^ 53 }
    ensures { result ≡ (if nat_lt (2 ^ 53) (next + length batch.now)
        then Some (Refusal.NumbersSpent next) else None) }
{
    if batch.len() as u64 > NUMBERS_END - next {
        Some(Refusal::NumbersSpent { next })
    } else {
        None
    }
}

/// Whether the work of this number has the id.
fn is_of_id(works: &[Record], number: u64, id: Uuid) -> bool
    requires { AllLater IsBefore works.now }
    ensures { result ≡ numbered_passes (λ work. bytes_eq work.request.id id) works.now number }
{
    match work_numbered(works, number) {
        Some(work) => work.request.id() == id,
        None => false,
    }
}

/// Whether a work of one of these numbers has the id.
fn any_of_id(works: &[Record], numbers: &[u64], id: Uuid) -> bool
    requires { AllLater IsBefore works.now }
    ensures { result ≡ list_any (numbered_passes (λ work. bytes_eq work.request.id id) works.now) numbers.now }
{
    numbers.iter().any(|number| is_of_id(works, *number, id))
}

/// Whether a named record has the id.
fn is_stored(works: &[Record], known: &[u64], id: Uuid) -> bool
    requires in_order { AllLater IsBefore works.now }
    requires known { AreNumbersOf works.now known.now }
    ensures { result ≡ is_stored (grouped works.now known.now) id }
{
    any_of_id(works, known, id)
}

/// Whether the work of this number has the id and isn't let go.
fn is_left_of_id(works: &[Record], let_go: &[u64], number: u64, id: Uuid) -> bool
    requires { AllLater IsBefore works.now }
    ensures { result ≡ numbered_passes (λ work. bytes_eq work.request.id id && not (is_among let_go.now work.seq))
        works.now number }
{
    match work_numbered(works, number) {
        Some(work) => work.request.id() == id && !is_among(let_go, work.seq),
        None => false,
    }
}

/// Whether a work of one of these numbers has the id and isn't let go.
fn any_left_of_id(works: &[Record], let_go: &[u64], numbers: &[u64], id: Uuid) -> bool
    requires { AllLater IsBefore works.now }
    ensures { result ≡ list_any
        (numbered_passes (λ work. bytes_eq work.request.id id && not (is_among let_go.now work.seq)) works.now)
        numbers.now }
{
    numbers
        .iter()
        .any(|number| is_left_of_id(works, let_go, *number, id))
}

/// Whether a named record has the id and isn't let go.
fn is_left(works: &[Record], let_go: &[u64], known: &[u64], id: Uuid) -> bool
    requires in_order { AllLater IsBefore works.now }
    requires known { AreNumbersOf works.now known.now }
    ensures { result ≡ is_stored (without let_go.now (grouped works.now known.now)) id }
{
    any_left_of_id(works, let_go, known, id)
}

/// Whether the work of this number has the id and is periodic.
fn is_periodic_of_id(works: &[Record], number: u64, id: Uuid) -> bool
    requires { AllLater IsBefore works.now }
    ensures { result ≡ numbered_passes (λ work. bytes_eq work.request.id id && is_some work.request.period)
        works.now number }
{
    match work_numbered(works, number) {
        Some(work) => work.request.id() == id && work.request.period().is_some(),
        None => false,
    }
}

/// Whether a work of one of these numbers has the id and is periodic.
fn any_periodic_of_id(works: &[Record], numbers: &[u64], id: Uuid) -> bool
    requires { AllLater IsBefore works.now }
    ensures { result ≡ list_any
        (numbered_passes (λ work. bytes_eq work.request.id id && is_some work.request.period) works.now)
        numbers.now }
{
    numbers
        .iter()
        .any(|number| is_periodic_of_id(works, *number, id))
}

/// Whether a named record has the id and is periodic.
fn is_stored_periodic(works: &[Record], known: &[u64], id: Uuid) -> bool
    requires in_order { AllLater IsBefore works.now }
    requires known { AreNumbersOf works.now known.now }
    ensures { result ≡ is_stored_periodic (grouped works.now known.now) id }
{
    any_periodic_of_id(works, known, id)
}

/// The first work of a batch whose id a named record has.
fn first_stored<'a>(works: &[Record], known: &[u64], batch: &'a [Node]) -> Option<&'a Node>
    requires in_order { AllLater IsBefore works.now }
    requires known { AreNumbersOf works.now known.now }
    ensures { option_copied result
        ≡ find (λ node. is_stored (grouped works.now known.now) node.request.id) batch.now }
{
    batch
        .iter()
        .find(|node| is_stored(works, known, node.request.id()))
}

/// The first work of a batch whose id a record has is refused.
fn id_in_use(works: &[Record], known: &[u64], batch: &[Node]) -> Option<Refusal>
    requires in_order { AllLater IsBefore works.now }
    requires known { AreNumbersOf works.now known.now }
    ensures { result ≡ option_map (λ node. Refusal.IdInUse node.request.id)
        (find (λ node. is_stored (grouped works.now known.now) node.request.id) batch.now) }
{
    match first_stored(works, known, batch) {
        Some(node) => Some(Refusal::IdInUse {
            id: node.request.id(),
        }),
        None => None,
    }
}

/// Whether the id is one of these works.
fn has_id(batch: &[Node], id: Uuid) -> bool
    ensures { result ≡ has_id (ids_of batch.now) id }
{
    has_work(batch, id)
}

/// The first of these ids that neither one of these works of the batch has nor a record that isn't
/// let go.
fn first_unknown(
    works: &[Record],
    let_go: &[u64],
    known: &[u64],
    earlier: &[Node],
    ids: &[Uuid],
) -> Option<Uuid>
    requires in_order { AllLater IsBefore works.now }
    requires known { AreNumbersOf works.now known.now }
    ensures { result ≡ first_unknown (without let_go.now (grouped works.now known.now)) (ids_of earlier.now) ids.now }
{
    ids.iter().copied().find(|id| !(is_left(works, let_go, known, *id) || has_id(earlier, *id)))
}

/// The first id that a work names and that neither an earlier work of the batch has nor a record
/// that isn't let go.
fn no_such_prerequisite(
    works: &[Record],
    let_go: &[u64],
    known: &[u64],
    batch: &[Node],
) -> Option<Refusal>
    requires in_order { AllLater IsBefore works.now }
    requires known { AreNumbersOf works.now known.now }
    ensures { result ≡ no_such_prerequisite (without let_go.now (grouped works.now known.now)) [] batch.now }
{
    for (index, work) in batch.iter().enumerate() {
        if let Some(id) = first_unknown(
            works,
            let_go,
            known,
            &batch[..index],
            work.after.as_slice(),
        ) {
            return Some(Refusal::NoSuchPrerequisite { id });
        }
    }
    None
}

/// The first of these ids that a periodic record has.
fn first_periodic(works: &[Record], known: &[u64], ids: &[Uuid]) -> Option<Uuid>
    requires in_order { AllLater IsBefore works.now }
    requires known { AreNumbersOf works.now known.now }
    ensures { result ≡ find (is_stored_periodic (grouped works.now known.now)) ids.now }
{
    ids.iter()
        .copied()
        .find(|id| is_stored_periodic(works, known, *id))
}

/// The first id that a work names and that a periodic record has.
fn periodic_in_chain(works: &[Record], known: &[u64], batch: &[Node]) -> Option<Refusal>
    requires in_order { AllLater IsBefore works.now }
    requires known { AreNumbersOf works.now known.now }
    ensures { result ≡ periodic_in_chain (grouped works.now known.now) batch.now }
{
    for work in batch {
        if let Some(id) = first_periodic(works, known, work.after.as_slice()) {
            return Some(Refusal::PeriodicInChain { id });
        }
    }
    None
}

/// How many prerequisites a work has that names these, and that comes after works of these numbers
/// where it names none.
fn count_prior(after: &[u64], ids: &[Uuid]) -> usize
    ensures { result ≡ count_prior after.now ids.now }
{
    if ids.len() > 0 {
        ids.len()
    } else {
        after.len()
    }
}

/// The first work that would have more than 100 prerequisites.
fn too_many_prerequisites(after: &[u64], batch: &[Node]) -> Option<Refusal>
    ensures { result ≡ too_many_after after.now batch.now }
{
    for work in batch {
        if count_prior(after, work.after.as_slice()) > MAX_PREREQUISITES {
            return Some(Refusal::TooManyPrerequisites {
                id: work.request.id(),
            });
        }
    }
    None
}

/// The first check of the ids and the prerequisites that refuses a batch.
fn refusal_by_named(
    works: &[Record],
    known: &[u64],
    batch: &[Node],
    plan: &GroupPlan,
) -> Option<Refusal>
    requires in_order { AllLater IsBefore works.now }
    requires known { AreNumbersOf works.now known.now }
    ensures { result ≡ first_refusal
        (option_map (λ node. Refusal.IdInUse node.request.id)
        (find (λ node. is_stored (grouped works.now known.now) node.request.id) batch.now)
        ∷ no_such_prerequisite (without plan.now.let_go (grouped works.now known.now)) [] batch.now
        ∷ periodic_in_chain (grouped works.now known.now) batch.now
        ∷ too_many_after plan.now.after batch.now
        ∷ []) }
{
    if let Some(refusal) = id_in_use(works, known, batch) {
        return Some(refusal);
    }
    if let Some(refusal) = no_such_prerequisite(works, plan.let_go.as_slice(), known, batch) {
        return Some(refusal);
    }
    if let Some(refusal) = periodic_in_chain(works, known, batch) {
        return Some(refusal);
    }
    too_many_prerequisites(plan.after.as_slice(), batch)
}

/// The first check that refuses a batch which is placed as planned, where the next new work gets
/// this number. The records that the batch names, by the id of a work or of one that a work comes
/// after, are given by their numbers. It takes no memory.
pub fn check(
    works: &[Record],
    known: &[u64],
    batch: &Batch,
    plan: &GroupPlan,
    next: u64,
) -> Option<Refusal>
    requires in_order { AllLater IsBefore works.now }
    requires known { known.now ≡ numbers_in (filter (is_named_by batch.now.works) works.now) }
    requires few_works { length works.now ≤ 100000 }
    requires next { next ≤ 2 ^ 53 }
    ensures { (s : State) → s.works ≡ works.now → s.next ≡ next
        → result ≡ refusal_of_placing s (placing_by plan.now) batch.now.works }
{
    let nodes = batch.works().as_slice();
    if let Some(refusal) = too_many_works(works.len(), nodes) {
        return Some(refusal);
    }
    if let Some(refusal) = numbers_spent(next, nodes) {
        return Some(refusal);
    }
    refusal_by_named(works, known, nodes, plan)
}
