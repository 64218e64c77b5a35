//! The ends of leases, in their order.
ghost use Rattle.std.specs.Prelude.{◌≡◌, false, IfOk, OnErr, OnOk};
ghost use Rattle.wm_leases.specs.Ends.{has_end, AreOverIn, HasOver, IsEndForgotten, IsEndKept, IsEndMoved, IsEndOf};

use std::alloc::{AllocError, Global};
use std::collections::BTreeSet;

/// The end of each lease that ends, with the number of its run.
pub type Ends = BTreeSet<(u64, u64)>;

/// Keeps an end of a run besides the others. Where memory is refused, the ends are as they were.
fn keep_end(ends: &mut Ends, run: u64, end: Option<u64>) -> Result<(), AllocError>
    ensures ok { OnOk result (IsEndKept run end (has_end ends.old) (has_end ends.new)) }
    ensures err { OnErr result (ends.new ≡ ends.old) }
{
    if let Some(end) = end {
        ends.insert((end, run))?;
    }
    Ok(())
}

/// Forgets an end of a run. It takes no memory.
pub fn forget_end(ends: &mut Ends, run: u64, end: Option<u64>)
    ensures { IsEndForgotten run end (has_end ends.old) (has_end ends.new) }
{
    if let Some(end) = end {
        ends.remove(&(end, run));
    }
}

/// Moves the end of a run from one moment to another. Where memory is refused, the ends are as they were.
pub fn move_end(
    ends: &mut Ends,
    run: u64,
    before: Option<u64>,
    end: Option<u64>,
) -> Result<(), AllocError>
    requires { IsEndOf run before (has_end ends.old) }
    ensures ok { OnOk result (IsEndMoved run end (has_end ends.old) (has_end ends.new)) }
    ensures err { OnErr result (ends.new ≡ ends.old) }
{
    if before == end {
        return Ok(());
    }
    keep_end(ends, run, end)?;
    forget_end(ends, run, before);
    Ok(())
}

/// Whether one of these has come at a moment.
pub fn is_over_among(ends: &Ends, moment: u64) -> bool
    ensures { result ≡ false → HasOver (has_end ends.now) moment → ⊥ }
{
    match ends.first() {
        Some(end) => end.0 <= moment,
        None => false,
    }
}

/// The numbers of the runs whose ends have come at a moment. No end after the first that hasn't is looked
/// at. Memory that is refused is the only error.
pub fn over_among(alloc: Global, ends: &Ends, moment: u64) -> Result<BTreeSet<u64>, AllocError>
    ensures { IfOk result (AreOverIn (has_end ends.now) moment) }
{
    let mut runs = BTreeSet::new(alloc);
    for end in ends {
        if end.0 > moment {
            return Ok(runs);
        }
        runs.insert(end.1)?;
    }
    Ok(runs)
}
