//! The lines of a source, each as soon as it is there.
ghost use Rattle.std.specs.Prelude.{◌≡◌, ◌<◌, ◌+◌, length, vec_len, true, false, IfOk, IfSome};

use std::alloc::Global;
use wm_ended::Status;
use wm_io::{Got, Source};
use wm_script::{Limit, MAX_LINE_BYTES};

/// How many bytes are asked for in one read.
const PIECE_BYTES: usize = 4096;

/// The byte that ends a line.
const LF: u8 = b'\n';

/// A source whose bytes are given line by line.
#[derive(Drop)]
pub struct Lines<S: Source> {
    alloc: Global,
    source: S,
    /// What was read, and isn't given yet.
    piece: Vec<u8>,
}

impl<S: Source> Lines<S> {
    /// The lines of a source.
    pub fn new(alloc: Global, source: S) -> Lines<S> {
        Lines {
            alloc,
            source,
            piece: Vec::new(alloc),
        }
    }

    /// The next line, without its LF; a last line without LF counts. It reads no further than it has to.
    ///
    /// `ScriptTooLong` where the line has more bytes than a line of a script may have, `SourceFault` where
    /// the source failed, and `Memory`.
    pub fn next(&mut self) -> Result<Option<Vec<u8>>, Status> {
        let mut line = Vec::new(self.alloc);
        'pieces: while line.len() <= MAX_LINE_BYTES {
            if !self.fill()? {
                return Ok(if line.is_empty() { None } else { Some(line) });
            }
            if self.take_front(&mut line)? {
                return within(line);
            }
        }
        Err(Status::ScriptTooLong(Limit::Line))
    }

    /// Reads a piece where none is left, and answers whether there is one now: else the source is at its
    /// end.
    fn fill(&mut self) -> Result<bool, Status>
        ensures { IfOk result (λ some. some ≡ true → 0 < vec_len self.new.piece) }
    {
        if !self.piece.is_empty() {
            return Ok(true);
        }
        let mut buffer = [0u8; PIECE_BYTES];
        match self.source.read(&mut buffer) {
            Got::Some(count) => match self.piece.extend_from_slice(&buffer[..count]) {
                Ok(()) => Ok(true),
                Err(_) => Err(Status::Memory),
            },
            Got::End => Ok(false),
            Got::Failed => Err(Status::SourceFault),
        }
    }

    /// Puts what the piece has of a line behind its front, and answers whether the line ends there.
    fn take_front(&mut self, line: &mut Vec<u8>) -> Result<bool, Status>
        ensures { IfOk result (λ ended. ended ≡ false → vec_len line.new ≡ vec_len line.old + vec_len self.old.piece) }
    {
        match find_lf(&self.piece) {
            Some(end) => {
                if line.extend_from_slice(&self.piece[..end]).is_err() {
                    return Err(Status::Memory);
                }
                self.piece.drain(..end + 1);
                Ok(true)
            }
            None => {
                if line.extend_from_slice(&self.piece).is_err() {
                    return Err(Status::Memory);
                }
                self.piece.clear();
                Ok(false)
            }
        }
    }
}

/// The index of the first LF.
fn find_lf(bytes: &[u8]) -> Option<usize>
    ensures { IfSome result (λ end. end < length bytes.now) }
{
    bytes.iter().position(|byte| *byte == LF)
}

/// A line, where it isn't too long.
fn within(line: Vec<u8>) -> Result<Option<Vec<u8>>, Status> {
    if line.len() > MAX_LINE_BYTES {
        Err(Status::ScriptTooLong(Limit::Line))
    } else {
        Ok(Some(line))
    }
}
