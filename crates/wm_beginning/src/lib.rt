//! How a program begins that reads a script and opens a store.
//!
//! [`read_script`] reads a script from its source, and [`read_commands`] its commands. [`load`] loads a
//! store, and [`begin`] opens the rows that were loaded, beside the bench of the workers. Each that can't
//! hands all back that it was given, as a [`NotBegun`](wm_ended::NotBegun) with the status that tells why.
//! `specs/NotBegun.antt` says what comes back, `specs/Begun.antt` what has begun, and `specs/Over.antt` what
//! is over in the end. `specs/Caused.antt` says when each status comes of a program that begins so, whatever
//! its words are.
#![tactic(auto)]

mod beginning;
mod instances;
mod loading;
mod script;

pub use beginning::{Begun, begin};
pub use loading::{Loaded, load};
pub use script::{ReadFault, read_commands, read_script};
