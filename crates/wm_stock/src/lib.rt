//! The stock workers of this project, which need nothing but their input.
//!
//! Each is a [`Stock`], a [`Worker`](wm_worker::Worker) of the kind of its name, answers what
//! `specs/Answers.antt` of `wm_worker` says, and tells no diary. `Count` and `Wait` look at the
//! signal; the others don't. An [`AnyStock`] is one of any kind, and gives those that a program has.
#![tactic(auto)]

pub mod any_stock;
pub mod count;
pub mod echo;
pub mod fail_until;
mod input;
pub mod retry_until;
pub mod stock;
pub mod sum;
pub mod wait;

pub use any_stock::{AnyStock, STOCK_WORKERS};
pub use count::Count;
pub use echo::Echo;
pub use fail_until::FailUntil;
pub use retry_until::RetryUntil;
pub use stock::{Answering, Stock};
pub use sum::Sum;
pub use wait::Wait;
