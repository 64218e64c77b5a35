//! How the inputs of a work become one, after `androidx.work.InputMerger` and its two kinds.
#![tactic(auto)]

mod element;
pub mod fault;
pub mod merger;
mod merging;

pub use fault::MergeFault;
pub use merger::merge;
