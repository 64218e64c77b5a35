//! How a test driver ends that is asked the lines of a script.
use wm_ended::Status;
use wm_live::LiveEnd;
use wm_worker::Worker;

/// What comes back of a test driver whose table was begun.
#[derive(Drop)]
pub struct LiveEnded<K, W, B = Box<dyn Worker + Send>> {
    /// How it ended: `Done`, `SinkFault`, `KeeperFault` or `Memory`.
    pub status: Status,
    /// What the driver handed back: its trouble, the table with its log and the keeper, the workers that
    /// are left, and the text.
    pub end: LiveEnd<K, B>,
    pub sink: W,
}
