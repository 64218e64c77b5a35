//! The kinds of works, one-time or periodic, that a policy can take.
ghost use Rattle.std.specs.Option.{option_copied};
ghost use Rattle.std.specs.Prelude.{◌≡◌, ◌||◌, find, nat_lt, None, option_map, Some};
ghost use Rattle.wm_collections.specs.Lists.{AllLater};
ghost use Rattle.wm_machine.specs.Plan.{first_of_batch, is_appending, is_for_periodic, is_unfit, mismatch, unfit_work};
ghost use Rattle.wm_machine.specs.Valid.{IsBefore};
ghost use Rattle.wm_request.specs.Batches.{is_periodic};
ghost use Rattle.wm_unique.specs.Plans.{AreNumbersOf, grouped, numbered_passes};

use uuid::Uuid;
use wm_machine::{Policy, Record, work_numbered};
use wm_request::Node;

/// Whether a policy appends works to what is there.
fn is_appending(policy: Policy) -> bool
    ensures { result ≡ is_appending policy }
{
    matches!(policy, Policy::Append | Policy::AppendOrReplace)
}

/// Whether a policy is for periodic work alone.
fn is_for_periodic(policy: Policy) -> bool
    ensures { result ≡ is_for_periodic policy }
{
    matches!(policy, Policy::CancelAndReenqueue | Policy::Update)
}

/// Whether a policy can't take a member.
fn is_unfit(policy: Policy, member: &Record) -> bool
    ensures { result ≡ is_unfit policy member.now }
{
    match policy {
        Policy::Append | Policy::AppendOrReplace => member.request.period().is_some(),
        Policy::Update => member.request.period().is_none(),
        _ => false,
    }
}

/// The first periodic work of a batch.
fn first_periodic(works: &[Node]) -> Option<&Node>
    ensures { option_copied result ≡ find is_periodic works.now }
{
    works.iter().find(|work| work.is_periodic())
}

/// Whether a policy can't take a batch of so many works of which one is periodic.
fn refuses_periodic(policy: Policy, count: usize) -> bool
    ensures { result ≡ (nat_lt 1 count || is_appending policy) }
{
    count > 1 || is_appending(policy)
}

/// The id of the first periodic work of a batch, where a policy can't take it.
fn unfit_periodic(policy: Policy, works: &[Node], periodic: &Node) -> Option<Uuid>
    ensures { result ≡ option_map (λ work. work.request.id) (unfit_work (Some periodic.now) policy works.now) }
{
    if refuses_periodic(policy, works.len()) {
        Some(periodic.request.id())
    } else {
        None
    }
}

/// The id of the first work of a batch.
fn first_id(works: &[Node]) -> Option<Uuid>
    ensures { result ≡ option_map (λ work. work.request.id) (first_of_batch works.now) }
{
    match works {
        [work, ..] => Some(work.request.id()),
        [] => None,
    }
}

/// The id of the first work of a batch without periodic work, where a policy can't take it.
fn unfit_one_time(policy: Policy, works: &[Node]) -> Option<Uuid>
    ensures { result ≡ option_map (λ work. work.request.id) (unfit_work None policy works.now) }
{
    if is_for_periodic(policy) {
        first_id(works)
    } else {
        None
    }
}

/// The id of the work of a batch that a policy can't take.
fn unfit_work(policy: Policy, works: &[Node]) -> Option<Uuid>
    ensures { result ≡ option_map (λ work. work.request.id)
        (unfit_work (find is_periodic works.now) policy works.now) }
{
    match first_periodic(works) {
        Some(periodic) => unfit_periodic(policy, works, periodic),
        None => unfit_one_time(policy, works),
    }
}

/// Whether a policy can't take the work of this number.
fn is_unfit_work(policy: Policy, works: &[Record], number: u64) -> bool
    requires { AllLater IsBefore works.now }
    ensures { result ≡ numbered_passes (is_unfit policy) works.now number }
{
    match work_numbered(works, number) {
        Some(work) => is_unfit(policy, work),
        None => false,
    }
}

/// The first of these numbers whose work a policy can't take.
fn first_number_unfit(policy: Policy, works: &[Record], numbers: &[u64]) -> Option<u64>
    requires { AllLater IsBefore works.now }
    ensures { result ≡ find (numbered_passes (is_unfit policy) works.now) numbers.now }
{
    numbers
        .iter()
        .copied()
        .find(|number| is_unfit_work(policy, works, *number))
}

/// The first member that a policy can't take.
fn unfit_member<'a>(policy: Policy, works: &'a [Record], group: &[u64]) -> Option<&'a Record>
    requires in_order { AllLater IsBefore works.now }
    requires group { AreNumbersOf works.now group.now }
    ensures { option_copied result ≡ find (is_unfit policy) (grouped works.now group.now) }
{
    match first_number_unfit(policy, works, group) {
        Some(number) => work_numbered(works, number),
        None => None,
    }
}

/// The id of the first work of a batch, or else of the first member, whose kind a policy can't take.
pub fn mismatch(policy: Policy, works: &[Record], group: &[u64], batch: &[Node]) -> Option<Uuid>
    requires in_order { AllLater IsBefore works.now }
    requires group { AreNumbersOf works.now group.now }
    ensures { result ≡ mismatch policy (grouped works.now group.now) batch.now }
{
    if let Some(id) = unfit_work(policy, batch) {
        return Some(id);
    }
    match unfit_member(policy, works, group) {
        Some(member) => Some(member.request.id()),
        None => None,
    }
}
