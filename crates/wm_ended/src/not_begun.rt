//! What comes back where no table was begun.
ghost use Rattle.std.specs.Prelude.{◌≡◌, false};

use crate::status::Status;
use wm_bench::Hand;
use wm_worker::Worker;

/// What comes back where no table was begun.
#[derive(Drop)]
pub struct NotBegun<K, W, B = Box<dyn Worker + Send>> {
    /// Why: `Usage`, `SourceFault`, `ScriptTooLong`, `BadStore`, `KeeperFault` or `Memory`.
    pub status: Status,
    /// Whether the rows that were loaded change by their opening, and the commit of that was refused: a
    /// crash may then leave what it would have left.
    pub at_opening: bool,
    pub keeper: K,
    pub sink: W,
    /// The workers, in the order in which they were given.
    pub hands: Vec<Hand<B>>,
}

impl<K, W, B> NotBegun<K, W, B> {
    /// What comes back where no opening was committed.
    pub fn before_opening(
        status: Status,
        keeper: K,
        sink: W,
        hands: Vec<Hand<B>>,
    ) -> NotBegun<K, W, B>
        ensures { result ≡ record { status = status; at_opening = false; keeper = keeper; sink = sink; hands = hands } }
    {
        NotBegun {
            status,
            at_opening: false,
            keeper,
            sink,
            hands,
        }
    }
}
