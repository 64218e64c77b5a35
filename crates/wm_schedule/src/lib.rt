//! When work is due: the wait after a retry, the periods of periodic work, and the moment from
//! which a work may start.
//!
//! After the guide's page "Define work requests": delayed work, retry and backoff, and periodic work
//! with its flex interval. The exact moments and the ends of a wait are this project's own choice.
#![tactic(auto)]

mod clamping;
mod moment;
pub mod schedule;
mod waiting;

pub use clamping::{clamp_backoff, clamp_period};
pub use moment::due;
pub use schedule::{Backoff, BackoffPolicy, Period, Times};
pub use waiting::wait;
