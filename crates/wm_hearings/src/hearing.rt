//! What is heard, and what a hearing comes to.
use std::alloc::{AllocError, Global};
use wm_collections::{Items, Replica};
use wm_machine::Event;

/// What is heard.
#[derive(Debug, Drop)]
pub enum Heard {
    /// A line, without its LF.
    Line(Items<u8>),
    /// A line that is too long to be told.
    TooLong,
    /// That nothing came until about the moment that was asked for.
    Pause,
    /// The end of the input.
    End,
    /// That the input can't be read.
    Failed,
}

/// What is heard, and when.
#[derive(Debug, Drop)]
pub struct Hearing {
    /// The moment, in milliseconds since 1970.
    pub at: u64,
    pub heard: Heard,
}

impl Replica for Heard {
    fn replica(&self, alloc: Global) -> Result<Heard, AllocError> {
        Ok(match self {
            Heard::Line(line) => Heard::Line(line.copied(alloc)?),
            Heard::TooLong => Heard::TooLong,
            Heard::Pause => Heard::Pause,
            Heard::End => Heard::End,
            Heard::Failed => Heard::Failed,
        })
    }
}

impl Replica for Hearing {
    fn replica(&self, alloc: Global) -> Result<Hearing, AllocError> {
        Ok(Hearing {
            at: self.at,
            heard: self.heard.replica(alloc)?,
        })
    }
}

/// What a session is given.
#[derive(Clone, Copy, Debug, PartialEq, Eq)]
pub struct Terms {
    /// Its number, which no other session of the store has had.
    pub number: u64,
    /// How long a run may be at work without a word, in milliseconds, at least 1.
    pub lease: u64,
}

/// How far a session is.
#[derive(Clone, Copy, Debug, PartialEq, Eq)]
pub enum Stage {
    /// Works start as they may.
    Open,
    /// Nothing starts any more, since the line of this number closed it, and a run is out.
    Closing { line: u32 },
    /// It was closed, and no run is out.
    Over,
}

/// What a hearing comes to.
#[derive(Debug, Drop)]
pub struct Came {
    /// The events that it made, in order.
    pub events: Items<Event>,
    /// What is to be written.
    pub text: Items<u8>,
}
