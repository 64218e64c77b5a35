//! All that the program does, by its first word.
//!
//! [`program`] does what the first word asks for, and gives an [`Outcome`]; [`exit_after`] ends the program
//! by it. What is promised stands in `specs/Outcomes.antt`, and cites what is promised of each.
#![tactic(auto)]

mod ending;
mod outcome;
mod top;

pub use ending::exit_after;
pub use outcome::Outcome;
pub use top::program;
