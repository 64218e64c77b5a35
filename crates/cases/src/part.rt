//! What a case asks for.
ghost use Rattle.std.specs.Prelude.{◌<◌};

use crate::holds::Hold;
use std::alloc::{AllocError, Global};
use wm_keeper::Row;

/// How many bytes a read or a write moves at most where a case doesn't say.
const ALL_BYTES: usize = 1_000_000;

/// The calls of source, sink and keeper that fail in a run, by their numbers, counted from 1.
#[derive(Drop)]
pub struct Failing {
    /// As the case has it, `source 1` for one.
    pub text: String,
    pub source: Vec<u32>,
    pub sink: Vec<u32>,
    pub keeper: Vec<u32>,
}

impl Failing {
    /// No call.
    pub fn none(alloc: Global) -> Failing {
        Failing {
            text: String::new(alloc),
            source: Vec::new(alloc),
            sink: Vec::new(alloc),
            keeper: Vec::new(alloc),
        }
    }
}

/// A script with what it is run on: a case, or what follows the case before it on the rows that
/// that one kept. It is run once for each choice of failing calls, each time on the same rows.
#[derive(Drop)]
pub struct Part {
    /// The case's name; none where it goes on from the part before.
    pub name: Option<String>,
    /// The rows that are put into the store before the run.
    pub rows: Vec<Row>,
    /// The words of the command line.
    pub words: Vec<String>,
    /// How many bytes a read or a write moves at most.
    pub moves: usize,
    /// The choices of failing calls; where there is none, no call fails.
    pub failing: Vec<Failing>,
    /// Where threads are held.
    pub holds: Vec<Hold>,
    pub script: Vec<u8>,
    /// Whether the log and the rows of the run aren't told.
    pub brief: bool,
    ghost some_move: { 0 < moves },
}

impl Part {
    /// A part with an empty script and the words of an ordinary run.
    pub fn new(alloc: Global, name: Option<String>) -> Result<Part, AllocError> {
        let store = String::from_str(alloc, "--store")?;
        let demo = String::from_str(alloc, "demo")?;
        Ok(Part {
            name,
            rows: Vec::new(alloc),
            words: vec![in alloc; store, demo]?,
            moves: ALL_BYTES,
            failing: Vec::new(alloc),
            holds: Vec::new(alloc),
            script: Vec::new(alloc),
            brief: false,
        })
    }
}
