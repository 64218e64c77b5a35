//! What inputs become by each merger.
ghost use Rattle.std.specs.Prelude.{◌≡◌, Ok, IfOk, IfErr};
ghost use Rattle.wm_merge.specs.Merged.{merged, IsMergeFaultOf};

use crate::fault::MergeFault;
use crate::merging::Merging;
use std::alloc::Global;
use wm_data::{Data, Merger};

/// What inputs become by a merger.
///
/// `Conflict` with the least key where `ArrayCreating` finds values of two element types under one,
/// else `TooLarge`.
pub fn merge(alloc: Global, how: Merger, inputs: &[Data]) -> Result<Data, MergeFault>
    ensures ok { IfOk result (λ built. merged how inputs.now ≡ Ok built) }
    ensures err { IfErr result (IsMergeFaultOf (merged how inputs.now)) }
{
    let mut merging = Merging::new(alloc);
    for input in inputs {
        merging.add_input(alloc, how, input)?;
    }
    merging.build()
}
