//! The engine below a table: it makes the events of the machine, one a call, keeps their rows, and
//! hands each event to its caller.
//!
//! [`Engine`] keeps no log, so that it takes no more memory the longer it works. Whoever wants all
//! events keeps those that it was handed, as the table does.
#![tactic(auto)]

pub mod engine;
pub mod mark;
mod row_changes;
pub mod ticket;
pub mod trouble;

pub use engine::{Begun, Claim, Engine, EngineEnd, TurnAnswer};
pub use mark::Mark;
pub use ticket::Ticket;
pub use trouble::{BeginFault, Trouble};
