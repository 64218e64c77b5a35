//! The commands that change no work: those by which something is set, and those that are only
//! answered. What each comes to is the change of its step, built from a view of the state, whose event
//! has the command and its reply. A command has a file of its own.
//!
//! [`event_of`] makes the event of any command, and [`replying`] what one comes to that only has a reply.
#![tactic(auto)]

mod answering;
mod changes;
mod counts;
pub mod faulty;
mod finding;
pub mod hush;
pub mod moment;
pub mod observe;
pub mod query;
pub mod retire;
pub mod settle;
pub mod summary;

pub use changes::{event_of, replying};
pub use finding::numbers_with_ids;
