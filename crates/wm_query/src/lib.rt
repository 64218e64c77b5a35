//! What is read off the works of a state: whether the prerequisites of each have succeeded, which
//! starts next, what is told of it, and which works a query asks for.
//!
//! After the guide's pages "Work states" and "Managing work" (observing your work, complex work
//! queries).
#![tactic(auto)]

mod infos;
mod queries;
mod scan;

pub use infos::info;
pub use queries::{answer, has_tag, is_name, matches, matches_work};
pub use scan::{all_met, first_index, has_succeeded};
