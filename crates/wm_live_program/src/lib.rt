//! The program `live`: a script's lines as asks of a test driver.
//!
//! [`run_live`] reads the words after `live` and a script, opens a store, and has a test driver answer the
//! asks of the script's lines. [`read_asks`] reads the asks of a script, and [`ask_all`] has a driver answer
//! them. `specs/Asks.antt` says which lines are asks of their own; every other line is a command of
//! `wm_script`. `specs/Run.antt` says what is promised of the whole.
#![tactic(auto)]

mod asks;
mod driving;
mod ended;
mod program;

pub use asks::{ask_of, read_asks};
pub use driving::ask_all;
pub use ended::LiveEnded;
pub use program::run_live;
