//! A worker that a run is given, with its class.
use wm_collections::Text;
use wm_worker::Worker;

/// A worker that a run is given, and the class of works that it is for. The worker is boxed where
/// nothing else is said.
#[derive(Drop)]
pub struct Hand<B = Box<dyn Worker + Send>> {
    /// The name of the class.
    pub class: Text,
    pub worker: B,
}
