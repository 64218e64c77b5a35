//! A keeper of rows in a SQLite store.
//!
//! [`SqliteKeeper`] keeps its rows in the tables `work` and `work2` of a connection that it was given,
//! and [`FileKeeper`] in those of the file that it is told to load.
#![tactic(auto)]

mod changes;
mod file;
mod form;
mod keeper;
mod look;
mod refusal;
mod standing;
mod statements;
mod table;

pub use file::FileKeeper;
pub use keeper::SqliteKeeper;
pub use standing::{Spread, Standing};
