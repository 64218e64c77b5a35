//! The words of the command line.
//!
//! [`options_of`] reads those of a run, [`live_options_of`] those after the first word `live`, and
//! [`callers_options_of`] those after the first word `callers`. Each is none for any other list of words.
//! `specs/Settings.antt` says which settings words are and which values they have, and `specs/Run.antt`,
//! `Live.antt` and `Callers.antt` what they ask for.
#![tactic(auto)]

mod callers;
mod live;
mod run;
mod settings;

pub use callers::{CallersOptions, callers_options_of};
pub use live::{LiveOptions, live_options_of};
pub use run::{Options, Origin, options_of};
