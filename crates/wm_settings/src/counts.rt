//! What a summary counts.
ghost use Rattle.std.specs.List.{AllByRecursion};
ghost use Rattle.std.specs.Prelude.{◌≡◌, ◌≤◌, length};
ghost use Rattle.wm_machine.specs.Summarized.{counts_among, counts_of};
ghost use Rattle.wm_settings.specs.Told.{IsThere};

use wm_machine::{Counts, Record};
use wm_steps::View;

/// How many works of a view are in each shown state, and the sum of their attempts. It takes no
/// memory.
pub fn counts_of(view: &View) -> Counts
    ensures { result ≡ counts_of view.entry.now }
{
    counts_among(view, view.state.works.as_slice())
}

/// How many of these works are in each shown state, and the sum of their attempts.
fn counts_among(view: &View, works: &[Record]) -> Counts
    requires few { length works.now ≤ 100000 }
    requires there { AllByRecursion (IsThere view.now.works) works.now }
    ensures { result ≡ counts_among view.entry.now.works works.entry.now }
{
    let mut counts = Counts::none();
    for work in works {
        counts.count(view.shown_of(work));
        counts.attempts += u64::from(work.attempt);
    }
    counts
}
