//! A stored row as the values of its 27 columns.
//!
//! [`values_of`] gives the values of a row, once [`list_columns`] has written its lists, and [`rows_of`]
//! reads rows of the values that a store shows.
#![tactic(auto)]

mod columns;
mod reading;
mod writing;

pub use columns::{ListColumns, list_columns};
pub use reading::rows_of;
pub use writing::values_of;
