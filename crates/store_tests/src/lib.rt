//! Tests of the keepers of `wm_sqlite`, over stores in memory and over files, of whole runs over files,
//! and of a store that is stopped after each number of calls of its disk: what is found when it is
//! opened again.
//!
//! It is otherwise empty.
#![tactic(auto)]

#[cfg(test)]
mod files;
#[cfg(test)]
mod rows;
#[cfg(test)]
mod runs;
#[cfg(test)]
mod state_rows;
#[cfg(test)]
mod stores;
#[cfg(test)]
mod sweep;
#[cfg(test)]
mod tables;
