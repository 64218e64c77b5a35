//! What observers saw.
ghost use Rattle.std.specs.Prelude.{◌≤◌, length};

use wm_collections::Items;
use wm_machine::{WorkInfo, WorkQuery};

/// What the observers of a state saw in it.
#[derive(Drop)]
pub(crate) struct Seen {
    /// What each observer asks for, in order.
    pub observers: Items<WorkQuery>,
    /// What is told of each work, in ascending number.
    pub infos: Items<WorkInfo>,
    /// The number of the next work.
    pub next: u64,
    ghost few: { length observers ≤ 100 },
}
