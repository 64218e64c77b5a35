//! The list and the text that the public types of this workspace are made of.
//!
//! A contract sees an [`Items`] as the list of its elements and a [`Text`] as the list of its
//! bytes, so that a struct of these is a record of lists in every clause. Each is made from std's
//! collection and gives it back without taking memory. [`Replica`] is a copy that is known to
//! be equal, and [`both`] has a value beside one that takes memory.
#![tactic(auto)]

pub mod items;
pub mod joins;
pub mod numbers;
pub mod replica;
pub mod sets;
pub mod shared;
pub mod text;

pub use items::Items;
pub use joins::{at, both, copied, one};
pub use numbers::is_among;
pub use replica::Replica;
pub use sets::{add_each, listed, merged};
pub use shared::Shared;
pub use text::Text;
