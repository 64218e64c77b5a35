//! Chains of works: layer after layer, chains that become one, and the batch that they are.
//!
//! After `androidx.work.WorkContinuation` and the guide's page "Chaining work". Which batches are
//! refused is this project's own choice.
#![tactic(auto)]

pub mod batching;
pub mod continuation;
pub mod fault;

pub use batching::batch_of;
pub use continuation::Continuation;
pub use fault::ChainFault;
