//! The kinds of workers.

/// What kind of worker an instance is: one of the stock workers, or a caller's own.
#[derive(Clone, Copy, Debug, PartialEq, Eq)]
pub enum Kind {
    Echo,
    Sum,
    FailUntil,
    RetryUntil,
    Count,
    Wait,
    Custom,
}
