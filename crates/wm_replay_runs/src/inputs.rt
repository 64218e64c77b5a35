//! What a run of a work takes.
ghost use Rattle.std.specs.Prelude.{◌≡◌, ◌∷◌, Err, Some, IfOk};
ghost use Rattle.wm_collections.specs.Lists.{AllLater};
ghost use Rattle.wm_machine.specs.Input.{cause_in, input_among, outputs_for, IsTaken};
ghost use Rattle.wm_machine.specs.Valid.{IsBefore};
ghost use Rattle.wm_merge.specs.Merged.{merged};

use std::alloc::{AllocError, Global};
use wm_collections::{Items, Replica};
use wm_data::Data;
use wm_machine::{Cause, Record, work_numbered};
use wm_merge::{MergeFault, merge};

/// What a run of a work takes, or the cause for which it takes nothing: of periodic work its own
/// input, and of one-time work what its merger makes of that and of what its prerequisites gave.
/// Memory that is refused is the only error.
pub fn input_among(
    alloc: Global,
    works: &[Record],
    work: &Record,
) -> Result<Result<Data, Cause>, AllocError>
    requires { AllLater IsBefore works.now }
    ensures { IfOk result (IsTaken (input_among works.entry.now work.entry.now)) }
{
    if work.request.period().is_some() {
        Ok(Ok(work.request.input().replica(alloc)?))
    } else {
        merged_by(alloc, works, work)
    }
}

/// What a work's merger makes of its inputs, or why they don't become one.
fn merged_by(
    alloc: Global,
    works: &[Record],
    work: &Record,
) -> Result<Result<Data, Cause>, AllocError>
    requires { AllLater IsBefore works.now }
    ensures { IfOk result (IsTaken (merged work.entry.now.request.merger
        (work.entry.now.request.input ∷ outputs_for works.entry.now work.entry.now))) }
{
    let inputs = inputs_for(alloc, works, work)?;
    match merge(alloc, work.request.merger(), inputs.as_slice()) {
        Ok(input) => Ok(Ok(input)),
        Err(fault) => Ok(Err(cause_of(fault)?)),
    }
}

/// The inputs that a work's merger makes one of: its own, and then what its prerequisites gave, in
/// the order in which it names them.
fn inputs_for(alloc: Global, works: &[Record], work: &Record) -> Result<Items<Data>, AllocError>
    requires { AllLater IsBefore works.now }
    ensures { IfOk result (λ inputs. inputs
        ≡ work.entry.now.request.input ∷ outputs_for works.entry.now work.entry.now) }
{
    let mut inputs = Items::new(alloc);
    inputs.push(work.request.input().replica(alloc)?)?;
    for number in work.prior.as_slice() {
        if let Some(prior) = work_numbered(works, *number) {
            inputs.push(prior.output.replica(alloc)?)?;
        }
    }
    Ok(inputs)
}

/// Why a work whose inputs don't become one can't start.
fn cause_of(fault: MergeFault) -> Result<Cause, AllocError>
    ensures { IfOk result (λ cause. cause_in (Err fault) ≡ Some cause) }
{
    match fault {
        MergeFault::Conflict { key } => Ok(Cause::Conflict { key }),
        MergeFault::TooLarge { size } => Ok(Cause::TooLarge { size }),
        MergeFault::Memory => Err(AllocError),
    }
}
