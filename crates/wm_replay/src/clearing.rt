//! Other records make way for a batch.
ghost use Rattle.std.specs.Prelude.{◌≡◌, ◌&&◌, filter, IfOk, OnOk};
ghost use Rattle.wm_collections.specs.Lists.{AllLater};
ghost use Rattle.wm_machine.specs.Enqueued.{made_ready};
ghost use Rattle.wm_machine.specs.Group.{is_dropped, numbers_in, with_let_go};
ghost use Rattle.wm_machine.specs.Valid.{IsBefore};
ghost use Rattle.wm_unique.specs.Plans.{placing_by};

use std::alloc::{AllocError, Global};
use wm_collections::{Items, is_among};
use wm_machine::{How, Record, State};
use wm_replay_commands::closing_each::close_each;
use wm_replay_commands::pruning::{is_removable, remove_works};
use wm_replay_runs::changing::{Change, change_items};
use wm_unique::GroupPlan;

/// Cancels the works that a plan cancels, one after another, and lets the others go.
pub fn make_ready(alloc: Global, state: &mut State, plan: &GroupPlan) -> Result<(), AllocError>
    requires { AllLater IsBefore state.old.works }
    ensures { OnOk result (state.new ≡ made_ready state.old (placing_by plan.entry.now)) }
{
    close_each(alloc, state, plan.cancel.as_slice(), How::Cancelled)?;
    let_go(alloc, &mut state.works, plan.let_go.as_slice())
}

/// Lets the works of these numbers go: those that may be removed are, and the name is taken from the
/// others.
fn let_go(alloc: Global, works: &mut Items<Record>, numbers: &[u64]) -> Result<(), AllocError>
    requires { AllLater IsBefore works.old }
    ensures { OnOk result (works.new ≡ with_let_go numbers.now works.old) }
{
    let dropped = dropped_numbers(alloc, works.as_slice(), numbers)?;
    remove_works(alloc, works, dropped.as_slice());
    change_items(alloc, works, &Unnaming { numbers })
}

/// The numbers of the works that are removed, where those of these numbers are let go.
fn dropped_numbers(
    alloc: Global,
    works: &[Record],
    numbers: &[u64],
) -> Result<Items<u64>, AllocError>
    ensures { IfOk result (λ dropped. dropped ≡ numbers_in (filter (is_dropped numbers.now works.now) works.now)) }
{
    let mut dropped = Items::new(alloc);
    for work in works {
        if is_dropped(works, numbers, work) {
            dropped.push(work.seq)?;
        }
    }
    Ok(dropped)
}

/// Whether a work is removed, where those of these numbers are let go.
fn is_dropped(works: &[Record], numbers: &[u64], work: &Record) -> bool
    ensures { result ≡ is_dropped numbers.now works.now work.now }
{
    is_among(numbers, work.seq) && is_removable(works, work)
}

/// The works of these numbers lose their name.
#[derive(Clone, Copy)]
struct Unnaming<'a> {
    numbers: &'a [u64],
}

impl Change<Record> for Unnaming<'_> {
    ghost use Rattle.std.specs.Prelude.{None};
    ghost use Rattle.wm_collections.specs.Lists.{is_among};

    ghost meant = { λ c work. is_among c.numbers.now work.seq };

    ghost made = { λ _ work. record work { name = None } };

    fn is_meant(&self, work: &Record) -> bool {
        is_among(self.numbers, work.seq)
    }

    fn make(&self, _alloc: Global, work: &mut Record) -> Result<(), AllocError> {
        work.name = None;
        Ok(())
    }
}
