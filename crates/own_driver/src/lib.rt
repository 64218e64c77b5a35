//! A driver that talks: each line of a source is answered before the next one is read.
//!
//! It has the engine in its own process, as [`Live`](wm_live::Live), over any keeper. The moment is the
//! system's at each line. `docs/LIBRARY.md` goes through it; the program `own_worker` has it talk over
//! standard input and output, and a store in a file.
#![tactic(auto)]

mod clock;
mod lines;
mod opening;
mod talk;

pub use lines::Lines;
pub use opening::open;
