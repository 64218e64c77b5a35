//! What is asked for: a request of work, which keeps its limits, its builder, and the works of a
//! batch.
//!
//! After `androidx.work.WorkRequest` and its `Builder`; the limits of texts, tags, delays and
//! periods are this project's own choice.
#![tactic(auto)]

pub mod builder;
pub mod fault;
pub mod nodes;
pub mod request;

pub use builder::{Builder, MAX_DELAY, MAX_TAGS, MAX_TEXT_BYTES};
pub use fault::RequestFault;
pub use nodes::{has_id, has_work};
pub use request::{Batch, NextRun, Node, Request};
