//! What programs around `wm_cli::run` have in common: the words of the command line, the stock workers,
//! and how a program ends.
#![tactic(auto)]

ghost use Rattle.std.specs.Prelude.{◌≡◌, IfOk, IfErr};
ghost use Rattle.std.specs.Process.{exit_status};
ghost use Rattle.wm_ended.specs.Status.{code_of};
ghost use Rattle.wm_ended.specs.declared.status.Status.TheVariants as status;

mod stock;

use std::alloc::{AllocError, Global};
use std::process::ExitCode;
use std::rt::Env;
use std::{env, io};
pub use stock::stock_hands;
use wm_ended::Status;

/// The words of the command line after the program's name. Where the system doesn't give them,
/// there is none.
///
/// Fails where memory is refused.
pub fn words(rt: &(impl Env + AllocGlobal)) -> Result<Vec<String>, AllocError> {
    match env::args(rt) {
        Ok(words) => words.skip(1).collect(rt.alloc()),
        Err(_) => Ok(Vec::new(rt.alloc())),
    }
}

/// The status of a run. Where memory was refused before the run, it ended so.
fn status_of(ran: Result<Status, AllocError>) -> Status
    ensures ended { IfOk ran (λ was. result ≡ was) }
    ensures refused { IfErr ran (λ _. result ≡ status.Memory) }
{
    match ran {
        Ok(status) => status,
        Err(_) => Status::Memory,
    }
}

/// Prints what a status has to say on standard error, as a line; nothing where it has no text.
fn report(rt: &impl Eprint, alloc: Global, status: &Status) -> io::Result<()> {
    let text = status.text(alloc)?;
    if !text.is_empty() {
        rt.eprintln(text.as_str())?;
    }
    Ok(())
}

/// The exit status of a run, which has said what it has to say on standard error. Where memory was
/// refused before the run, it ended so.
pub fn exit(rt: &impl Eprint, alloc: Global, ran: Result<Status, AllocError>) -> ExitCode
    ensures ended { IfOk ran (λ was. exit_status result ≡ code_of was) }
    ensures refused { IfErr ran (λ _. exit_status result ≡ code_of status.Memory) }
{
    let status = status_of(ran);
    // A text that can't be printed changes nothing of how the run ended.
    let _ = report(rt, alloc, &status);
    ExitCode::from(status.code())
}
