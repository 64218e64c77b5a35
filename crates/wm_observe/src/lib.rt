//! What observers are told: what has changed of the works that their queries ask for.
//!
//! After the guide's page "Managing work" (observing your work).
#![tactic(auto)]

mod comparing;
mod nearby;
pub mod note;
mod noting;
mod places;

pub use comparing::step_notes;
pub use note::{Note, Pair};
pub use noting::{is_same, notes};
