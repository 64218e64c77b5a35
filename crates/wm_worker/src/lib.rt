//! Workers: what runs a work, turn by turn.
//!
//! A [`Worker`] is asked for one turn of a [`Task`] at a time and answers a [`Told`], which keeps
//! that the answer is one that a worker of its kind may give. What the stock kinds answer is
//! defined in `specs/Answers.antt`. A [`Signal`] tells a running worker that its work was stopped. A
//! user's own worker is one function, [`DoWork`], of which [`Simple`] is the worker.
#![tactic(auto)]

pub mod answer;
pub mod kind;
pub mod signal;
pub mod simple;
pub mod task;
pub mod told;
pub mod worker;

pub use answer::{Answer, Entry, Given};
pub use kind::Kind;
pub use signal::{Raised, Signal};
pub use simple::{DoWork, Simple};
pub use task::Task;
pub use told::Told;
pub use worker::Worker;
