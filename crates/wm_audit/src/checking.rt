//! The check of an audit.
ghost use Rattle.std.specs.Prelude.{IfOk};
ghost use Rattle.wm_audit.specs.Verdicts.{IsVerdict};

use crate::comparing::{is_end, judged};
use crate::place::{Place, next_place};
use crate::verdict::Verdict;
use std::alloc::{AllocError, Global};
use wm_audit_text::next_line;

/// Checks the bytes of an audit, and tells whether they are that of a run.
///
/// `WrongLine` comes for the first line that isn't in the grammar or the spelling of its place, whose
/// row isn't sound after the rows before it, or whose event isn't legal in the state that the lines
/// before it give; a line that is missing counts. `WrongText` comes where every line is right and the
/// text isn't that of the events. Memory that is refused is the only error.
pub fn check(alloc: Global, bytes: &[u8]) -> Result<Verdict, AllocError>
    ensures { IfOk result (λ verdict. IsVerdict bytes.now verdict) }
{
    let mut place = Place::First;
    let mut rest = bytes;
    let mut number = 1;
    'lines: while let Some((line, later)) = next_line(rest) {
        if is_end(alloc, &place, line, later)? {
            return Ok(judged(place, later));
        }
        match next_place(alloc, place, line)? {
            Some(next) => place = next,
            None => return Ok(Verdict::WrongLine { line: number }),
        }
        rest = later;
        number += 1;
    }
    Ok(Verdict::WrongLine { line: number })
}
