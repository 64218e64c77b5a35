//! What a worker is to do.
use wm_data::Data;

/// What a worker is to do: one run of a work.
#[derive(Debug, Drop)]
pub struct Task {
    /// The number of the run.
    pub run: u64,
    /// Which attempt of the work it is.
    pub attempt: u32,
    /// The merged input.
    pub input: Data,
}
