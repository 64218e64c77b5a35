//! The command that prunes.
ghost use Rattle.std.specs.Prelude.{◌≡◌, count_by, filter, length, not, IfOk};
ghost use Rattle.wm_collections.specs.Lists.{AllLater, is_among};
ghost use Rattle.wm_machine.specs.Group.{numbers_in};
ghost use Rattle.wm_machine.specs.Pruned.{is_needed, prunable, pruned, removable};
ghost use Rattle.wm_machine.specs.Valid.{IsBefore, Valid};

use std::alloc::{AllocError, Global};
use std::mem;
use wm_collections::{Items, is_among};
use wm_machine::{Record, Reply, State};

/// The command that removes the finished works that no unfinished work needs, once they have been
/// kept for as long as was asked, or by force, and counts them.
pub fn prune(alloc: Global, state: &mut State, force: bool) -> Result<Reply, AllocError>
    requires valid { Valid state.old }
    ensures { IfOk result (λ reply. pruned state.old force ≡ record {
      reply = reply;
      state = state.new;
    }) }
{
    let numbers = prunable_numbers(alloc, state, force)?;
    remove_prunable(alloc, state, force, numbers.as_slice());
    Ok(Reply::Pruned(numbers.len() as u64))
}

/// Takes the works out that a prune removes, which have these numbers. It takes no memory.
fn remove_prunable(alloc: Global, state: &mut State, force: bool, numbers: &[u64])
    requires in_order { AllLater IsBefore state.old.works }
    requires numbers { numbers.now ≡ numbers_in (filter (prunable state.old force) state.old.works) }
    ensures { state.new ≡ record state.old {
      works = filter (λ work. not (prunable state.old force work)) state.old.works;
    } }
{
    remove_works(alloc, &mut state.works, numbers);
}

/// The numbers of the works that a prune removes.
fn prunable_numbers(alloc: Global, state: &State, force: bool) -> Result<Items<u64>, AllocError>
    ensures numbers { IfOk result (λ numbers. numbers
        ≡ numbers_in (filter (prunable state.entry.now force) state.entry.now.works)) }
    ensures count { IfOk result (λ numbers. length numbers
        ≡ count_by (prunable state.entry.now force) state.entry.now.works) }
{
    let works = state.works.as_slice();
    let mut numbers = Items::new(alloc);
    for work in works {
        if is_prunable(state, force, work) {
            numbers.push(work.seq)?;
        }
    }
    Ok(numbers)
}

/// Whether a prune removes a work.
#[tactic(auto, unfolding(wm_machine::specs::Pruned::prunable))]
fn is_prunable(state: &State, force: bool, work: &Record) -> bool
    ensures { result ≡ prunable state.entry.now force work.entry.now }
{
    is_removable(state.works.as_slice(), work) && (force || work.is_kept_enough(state.now))
}

/// Whether a work is finished, and no unfinished one needs it.
#[tactic(auto, unfolding(wm_machine::specs::Pruned::removable))]
pub fn is_removable(works: &[Record], work: &Record) -> bool
    ensures { result ≡ removable works.now work.now }
{
    !work.phase.is_open() && !is_needed(works, work.seq)
}

/// Whether an unfinished work has the one of this number as a prerequisite.
#[tactic(auto, unfolding(wm_machine::specs::Pruned::is_needed))]
fn is_needed(works: &[Record], number: u64) -> bool
    ensures { result ≡ is_needed works.now number }
{
    works.iter().any(|work| work.phase.is_open() && is_among(work.prior.as_slice(), number))
}

/// Takes the works of these numbers out. It takes no memory.
pub fn remove_works(alloc: Global, works: &mut Items<Record>, numbers: &[u64])
    ensures { works.new ≡ filter (λ work. not (is_among numbers.now work.seq)) works.old }
{
    let mut elements = mem::replace(works, Items::new(alloc)).into_vec();
    remove_numbered(&mut elements, numbers);
    *works = Items::from_vec(elements);
}

/// Takes the works of these numbers out.
fn remove_numbered(works: &mut Vec<Record>, numbers: &[u64])
    ensures { works.new.items ≡ filter (λ work. not (is_among numbers.now work.seq)) works.old.items }
{
    works.retain(|work| !is_among(numbers, work.seq));
}
