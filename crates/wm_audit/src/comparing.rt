//! The end of an audit: the last line, and the text after it.
ghost use Rattle.std.specs.Prelude.{◌≡◌, ◌↔◌, length, IfOk, IsTrue, Some};
ghost use Rattle.wm_audit.specs.Places.{IsEnd, IsInLog};
ghost use Rattle.wm_audit_text.specs.Lines.{end_of};
ghost use Rattle.wm_audit.specs.Verdicts.{AreCompared, IsJudged};

use crate::place::Place;
use crate::verdict::Verdict;
use std::alloc::{AllocError, Global};
use wm_audit_text::end_of;

/// Whether a line is the last of an audit, in its place and before these bytes.
pub(crate) fn is_end(
    alloc: Global,
    place: &Place,
    line: &[u8],
    given: &[u8],
) -> Result<bool, AllocError>
    ensures { IfOk result (λ is. IsTrue is ↔ IsEnd place.entry.now line.now given.now) }
{
    match place {
        Place::Log { .. } => is_before(alloc, line, given),
        _ => Ok(false),
    }
}

/// Whether a line says that just these bytes follow.
fn is_before(alloc: Global, line: &[u8], given: &[u8]) -> Result<bool, AllocError>
    ensures { IfOk result (λ is. IsTrue is ↔ (end_of line.now ≡ Some (length given.now))) }
{
    match end_of(alloc, line)? {
        Some(size) => Ok(size == given.len() as u64),
        None => Ok(false),
    }
}

/// The verdict where every line is right, and these bytes were given as the text.
pub(crate) fn judged(place: Place, given: &[u8]) -> Verdict
    requires { IsInLog place }
    ensures { IsJudged place given.now result }
{
    match place {
        Place::Log { state, text } => match first_difference(text.as_slice(), given) {
            None => Verdict::Sound { last: state },
            Some(at) => Verdict::WrongText { at },
        },
        _ => unreachable!(),
    }
}

/// Where two texts differ first, if they do.
fn first_difference(text: &[u8], given: &[u8]) -> Option<u64>
    ensures { AreCompared text.now given.now result }
{
    let common = text.len().min(given.len());
    for at in 0..common {
        if text[at] != given[at] {
            return Some(at as u64);
        }
    }
    if text.len() == given.len() {
        None
    } else {
        Some(common as u64)
    }
}
