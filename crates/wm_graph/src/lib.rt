//! The graph of works and their prerequisites: what a work reaches, which works are last, and
//! which become free.
//!
//! After the guide's page "Chaining work". Each node keeps how many of its prerequisites aren't
//! marked, and each node's dependents stand together in one ordered tree, so a call costs what it
//! touches and not what there is. The contract of each call is a definition over the list of nodes.
//! [`Numbers`] are those of nodes in their order, among which one is found by halving.
#![tactic(auto)]

mod adding;
mod freeing;
pub mod graph;
mod last;
mod node;
pub mod numbers;
mod removing;
mod walks;

pub use graph::Graph;
pub use numbers::{Numbers, is_listed, numbers_from};
