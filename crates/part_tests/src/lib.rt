//! Tests of single calls of the crates that the table stands on, as far as no table of plain values
//! has them, a module a subject: lists and copies, the graph, the index, ready works, keepers, streams,
//! workers and the bench, and the roll; and what the tests of the crates above have too: workers that tell
//! diaries, their hands, Data, requests within their limits, and a gate at which threads meet.
#![tactic(auto)]

#[cfg(test)]
mod checks;
#[cfg(test)]
mod collections;
pub mod data;
pub mod diarist;
#[cfg(test)]
mod graph;
pub mod hands;
#[cfg(test)]
mod index;
#[cfg(test)]
mod keepers;
pub mod meeting;
#[cfg(test)]
mod ready;
pub mod requests;
#[cfg(test)]
mod roll;
#[cfg(test)]
mod streams;
pub mod uploader;
#[cfg(test)]
mod workers;
