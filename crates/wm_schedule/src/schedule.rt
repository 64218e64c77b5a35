//! What the moment of a work depends on.

/// How the wait after a retry grows, after `androidx.work.BackoffPolicy`.
#[derive(Clone, Copy, Debug, PartialEq, Eq)]
pub enum BackoffPolicy {
    Linear,
    Exponential,
}

/// How long a work waits after a retry: the policy, and its delay in milliseconds.
#[derive(Clone, Copy, Debug, PartialEq, Eq)]
pub struct Backoff {
    pub policy: BackoffPolicy,
    pub delay: u64,
}

impl Backoff {
    /// Exponential from 30,000 ms on, which is the default of the guide's page on retries.
    pub const DEFAULT: Backoff = Backoff {
        policy: BackoffPolicy::Exponential,
        delay: 30_000,
    };
}

/// How often periodic work repeats, and the flex interval at the end of each period in which it
/// runs. Both in milliseconds.
#[derive(Clone, Copy, Debug, PartialEq, Eq)]
pub struct Period {
    pub period: u64,
    pub flex: u64,
}

/// What the moment at which a work is due depends on. Moments and delays are in milliseconds.
#[derive(Clone, Copy, Debug, PartialEq, Eq)]
pub struct Times {
    /// The moment from which its delay counts.
    pub enqueued_at: u64,
    pub initial_delay: u64,
    pub backoff: Backoff,
    /// The attempt that its backoff counts from, 0 where there is none.
    pub backoff_n: u32,
    /// How often it repeats; none for one-time work.
    pub period: Option<Period>,
    /// How many periods of it have run.
    pub runs: u32,
    /// The moment from which it may start whatever all of this says, where there is one.
    pub override_at: Option<u64>,
}
