//! What a worker answers to a turn, and what it writes down.
use crate::signal::Raised;
use wm_data::Data;

/// What a worker answers to one turn.
#[derive(Debug, Drop)]
pub enum Answer {
    /// It wants another turn, and tells its progress where it has something new.
    More(Option<Data>),
    /// The work succeeded, with this output.
    Success(Data),
    /// The work failed, with this output.
    Failure(Data),
    /// The work is to be tried again later.
    Retry,
    /// It read that its run was stopped.
    Cut(Raised),
}

/// An answer that a worker came to by itself: any but `Cut`.
#[derive(Debug, Drop)]
pub enum Given {
    More(Option<Data>),
    Success(Data),
    Failure(Data),
    Retry,
}

/// What a worker that tells a diary writes down.
#[derive(Debug, Drop)]
pub enum Entry {
    /// A run began.
    Begun { run: u64 },
    /// Turn `k` of a run gave this.
    Gave { run: u64, k: u32, given: Given },
}
