//! The commands of a large input, from a seed.
//!
//! [`generate`] gives them, as `specs/Generated.antt` defines them: groups of works, each a chain of
//! three layers, with numbers that are drawn one after another.
#![tactic(auto)]

mod draws;
pub mod generated;

pub use generated::generate;
