//! Works by their ids, by their unique names and by their tags.
//!
//! An [`Index`] answers which works have an id, a name or a tag, without a look at the others.
#![tactic(auto)]

mod adding;
mod group;
mod groups;
pub mod index;
mod tagging;
mod work;

pub use index::Index;
