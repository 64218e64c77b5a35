//! How the program ends.
ghost use Rattle.std.specs.Prelude.{◌≡◌};
ghost use Rattle.std.specs.Process.{exit_status};
ghost use Rattle.wm_outcome.specs.Outcomes.{code_of};

use crate::outcome::Outcome;
use std::alloc::Global;
use std::io;
use std::process::ExitCode;

/// Prints what an outcome has to say on standard error, as a line; nothing where it has no text.
fn report<K, W, B>(rt: &impl Eprint, alloc: Global, outcome: &Outcome<K, W, B>) -> io::Result<()> {
    let text = outcome.text(alloc)?;
    if !text.is_empty() {
        rt.eprintln(text.as_str())?;
    }
    Ok(())
}

/// The exit status of the program after this outcome, which has said what it has to say on standard error.
pub fn exit_after<K, W, B>(rt: &impl Eprint, alloc: Global, outcome: &Outcome<K, W, B>) -> ExitCode
    ensures { exit_status result ≡ code_of outcome.now }
{
    // A text that can't be printed changes nothing of how the program ended.
    let _ = report(rt, alloc, outcome);
    ExitCode::from(outcome.code())
}
