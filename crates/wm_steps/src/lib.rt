//! The view of a state, with what is kept beside it: the graph and the index of its records, those that
//! are ready, and how far the works of a unique name come before others. It answers what the crates
//! above ask to say what an event comes to, and makes the change that they say.
//!
//! A step makes its change at once: first all that takes memory, then the commit of the rows, and the
//! state last.
#![tactic(auto)]

mod covers;
mod entries;
mod follow;
pub mod laws;
mod readying;
mod rooms;
mod startable;
mod storing;
pub mod view;

pub use storing::commit;
pub use view::View;
