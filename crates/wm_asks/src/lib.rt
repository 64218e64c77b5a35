//! What a caller may ask of a test driver, and what it is answered.
//!
//! An [`Ask`] is a line's command, or that the delay, the period or the constraints of one work be met,
//! or that a clock be read, or when the state wakes. [`meet`] changes conditions so that they meet
//! constraints. A [`Clock`] tells moments; a [`StepClock`] tells equal steps. `specs/` has their
//! definitions, and `specs/AskTexts.antt` what is written for the answers that are no replies.
//!
//! After `androidx.work.testing.TestDriver`; how each ask is met is this project's own.
#![tactic(auto)]

pub mod ask;
pub mod clock;
pub mod laws;
mod meeting;
mod texts;

pub use ask::{Ask, LiveRefusal, LiveReply};
pub use clock::{Clock, LAST_MOMENT, StepClock};
pub use meeting::meet;
pub use texts::answer_text;
