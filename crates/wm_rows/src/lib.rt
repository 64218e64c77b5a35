//! The rows of records both ways. [`to_row`] is the row of a record, as wm_machine's
//! `specs/Rows.antt` defines it. [`from_row`] is the record of a row, and [`check_all`] gives those of
//! all rows of a store, as `specs/` defines them; [`laws`] says how the two ways belong together.
#![tactic(auto)]

mod checking;
mod fault;
mod fields;
mod fitting;
pub mod laws;
mod reading;
pub mod rows;
mod sound;
mod texts;

pub use checking::{check_all, read_after};
pub use fault::RowFault;
pub use fitting::fits_row;
pub use reading::from_row;
pub use rows::{have_one_row, is_same, to_row};
pub use sound::Before;
