//! Data: the typed values that work takes as its input and gives as its output.
//!
//! After `androidx.work.Data`: a small map from keys to values of a few types. A contract sees a
//! [`Data`] as the list of its entries, in ascending order of their keys.
#![tactic(auto)]

pub mod builder;
pub mod data;
mod element;
pub mod fault;
pub mod laws;
pub mod merger;
mod number;
mod reading;
pub mod search;
mod size;
pub mod value;
mod written;

pub use builder::{DataBuilder, MAX_DATA_BYTES};
pub use data::{Data, DataEntry};
pub use fault::DataFault;
pub use merger::Merger;
pub use size::entries_size;
pub use value::Value;
