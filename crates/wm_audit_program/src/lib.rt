//! The commands of audits: `export` and `check`, as the program has them after its first word.
//!
//! [`export_run`] runs as `wm_cli::run` does, over a [`SureSink`], and where the run is done writes its
//! audit to the sink. [`check_source`] reads an audit from its source, and writes the verdict on it to the
//! sink; how it ends is a [`CheckStatus`]. What is promised of the two stands in `specs/Exported.antt` and
//! `specs/Checked.antt`, fact by fact.
#![tactic(auto)]

pub mod checking;
pub mod exporting;
mod judging;
mod status;
pub mod sure;
mod writing;

pub use checking::{Checked, check_source};
pub use exporting::{Exported, export_run};
pub use status::CheckStatus;
pub use sure::SureSink;
