//! What a summary counts.
ghost use Rattle.std.specs.Prelude.{◌≡◌, ◌≤◌, length};
ghost use Rattle.wm_collections.specs.Lists.{AllLater};
ghost use Rattle.wm_machine.specs.Shown.{shown_of};
ghost use Rattle.wm_machine.specs.Summarized.{counts_among, counts_of};
ghost use Rattle.wm_machine.specs.Valid.{IsBefore, Valid};

use wm_machine::{Counts, Record, Shown, State};
use wm_query::all_met;

/// How many works are in each shown state, and the sum of their attempts. It takes no memory.
pub fn counts_of(state: &State) -> Counts
    requires valid { Valid state.now }
    ensures { result ≡ counts_of state.entry.now }
{
    counts_among(state.works.as_slice())
}

/// How many of these works are in each shown state, and the sum of their attempts.
fn counts_among(works: &[Record]) -> Counts
    requires few { length works.now ≤ 100000 }
    requires in_order { AllLater IsBefore works.now }
    ensures { result ≡ counts_among works.entry.now works.entry.now }
{
    let mut counts = Counts::none();
    for work in works {
        counts.count(shown_of(works, work));
        counts.attempts += u64::from(work.attempt);
    }
    counts
}

/// The state shown of a work among these.
pub fn shown_of(works: &[Record], work: &Record) -> Shown
    requires { AllLater IsBefore works.now }
    ensures { result ≡ shown_of works.now work.now }
{
    work.phase.shown(all_met(works, work))
}
