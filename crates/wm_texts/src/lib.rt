//! What is written for the events of a log.
//!
//! [`event_text`] is the text of one event; its definition is `specs/Texts.antt`.
#![tactic(auto)]

pub mod texts;

pub use texts::event_text;
