//! The limits of a script.
ghost use Rattle.std.specs.Prelude.{◌≡◌};
ghost use Rattle.wm_script.specs.Limits.{first_limit};

use crate::lines::first_line;

/// The most bytes that a script has.
pub const MAX_SCRIPT_BYTES: usize = 16_777_216;

/// The most bytes that a line has, without its LF.
pub const MAX_LINE_BYTES: usize = 1_048_576;

/// The most lines that a script has.
pub const MAX_LINES: usize = 100_000;

/// A limit of a script.
#[derive(Clone, Copy, Debug, PartialEq, Eq)]
pub enum Limit {
    /// On all of its bytes: [`MAX_SCRIPT_BYTES`].
    Bytes,
    /// On the bytes of one line: [`MAX_LINE_BYTES`].
    Line,
    /// On its lines: [`MAX_LINES`].
    Lines,
}

/// Why a script isn't read.
#[derive(Clone, Copy, Debug, PartialEq, Eq)]
pub enum ScriptFault {
    /// It is longer than a limit allows.
    TooLong(Limit),
    /// Memory was refused.
    Memory,
}

/// The first limit that a script passes, if it passes one: on its bytes, then on the bytes of a
/// line, then on its lines.
#[tactic(auto, unfolding(crate::specs::Limits::first_limit))]
pub fn first_limit(bytes: &[u8]) -> Option<Limit>
    ensures { result ≡ first_limit bytes.now }
{
    if bytes.len() > MAX_SCRIPT_BYTES {
        return Some(Limit::Bytes);
    }
    let mut lines = 0;
    let mut rest = bytes;
    'lines: while !rest.is_empty() {
        let (line, others) = first_line(rest);
        if line.len() > MAX_LINE_BYTES {
            return Some(Limit::Line);
        }
        lines += 1;
        rest = others;
    }
    if lines > MAX_LINES {
        Some(Limit::Lines)
    } else {
        None
    }
}
