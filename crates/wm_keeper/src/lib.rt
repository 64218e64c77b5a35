//! Keepers of rows: where the work of a run is stored.
//!
//! A [`Row`] is one stored work, under its number. A [`Keeper`] loads its rows and commits changes
//! to them, all or none. [`MemoryKeeper`] fails where it is told to, and [`SureKeeper`] never does.
#![tactic(auto)]

pub mod keeper;
pub mod memory;
pub mod row;
mod rows;
pub mod sure;

pub use keeper::{KeepFault, Keeper};
pub use memory::MemoryKeeper;
pub use row::{Change, Row, do_ascend};
pub use sure::SureKeeper;
