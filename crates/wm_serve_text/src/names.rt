//! The names of runs.
ghost use Rattle.std.specs.Prelude.{◌≡◌, ◌^◌, ◌<◌, ℕ, string_bytes, IfOk, MatchOption};
ghost use Rattle.wm_serve_text.specs.Names.{run_name};

use std::alloc::{AllocError, Global};

/// The name of a run of a session: the number of the session, `-` and the number of the run, both in
/// decimal digits without leading zeros, as `17-3`. Memory that is refused is the only error.
pub fn run_name(alloc: Global, session: u64, run: u64) -> Result<String, AllocError>
    ensures { IfOk result (λ name. string_bytes name ≡ run_name session run) }
{
    format!(in alloc; "{session}-{run}")
}

/// The number of the run of a session that has this name; none where it is the name of no run of the
/// session. Memory that is refused is the only error.
pub fn run_named(alloc: Global, session: u64, name: &str) -> Result<Option<u64>, AllocError>
    ensures { IfOk result (λ found. MatchOption found
        ((run : ℕ) → run < 2 ^ 64 → name.now ≡ run_name session run → ⊥)
        (λ run. name.now ≡ run_name session run)) }
{
    let Some(run) = number_after(alloc, session, name)? else {
        return Ok(None);
    };
    let own = run_name(alloc, session, run)?;
    if own.as_str() == name {
        Ok(Some(run))
    } else {
        Ok(None)
    }
}

/// The number that stands in a name behind the number of the session.
fn number_after(alloc: Global, session: u64, name: &str) -> Result<Option<u64>, AllocError>
    ensures { IfOk result (λ found. (run : ℕ) → run < 2 ^ 64 → name.now ≡ run_name session run → found ≡ Some run) }
{
    let front = format!(in alloc; "{session}-")?;
    match name.strip_prefix(front.as_str()) {
        Some(digits) => Ok(digits.parse::<u64>().ok()),
        None => Ok(None),
    }
}
