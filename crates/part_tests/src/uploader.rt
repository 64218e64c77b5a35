//! A worker of a caller's own, for the tests: it tells its progress, and then fails.
use std::alloc::{AllocError, Global};
use wm_collections::Replica;
use wm_data::Data;
use wm_worker::{Answer, DoWork, Signal, Task};

/// A worker of kind Custom that tells no diary. It wants so many more turns, tells its progress in
/// each of them, and fails with its output in the next.
#[derive(Drop)]
pub struct Uploader {
    turns: u32,
    progress: Data,
    output: Data,
}

impl Uploader {
    pub fn new(turns: u32, progress: Data, output: Data) -> Uploader {
        Uploader {
            turns,
            progress,
            output,
        }
    }
}

impl DoWork for Uploader {
    fn do_work(
        &mut self,
        alloc: Global,
        _task: &Task,
        k: u32,
        _signal: &Signal,
    ) -> Result<Answer, AllocError> {
        Ok(if k < self.turns {
            Answer::More(Some(self.progress.replica(alloc)?))
        } else {
            Answer::Failure(self.output.replica(alloc)?)
        })
    }
}
