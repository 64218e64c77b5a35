//! What programs that read the files of a folder have in common, the cases of whole runs and the tables
//! of single calls: which files there are ([`files`]), how the fields of a row are read ([`fields`]), by
//! which names ([`names`]), what the fields of a stored row are ([`rows`]), and what is told of an event
//! ([`events`]).
#![tactic(auto)]

pub mod events;
pub mod fields;
pub mod files;
pub mod names;
pub mod rows;
