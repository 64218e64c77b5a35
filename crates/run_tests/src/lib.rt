//! Tests of a book whose runs the test drives itself, of whole runs, also over a large input and with
//! worker threads that a gate of the test holds, of callers, at a desk, in a program's threads and of a
//! script, and of how a program ends, a module a subject. Worked cases show the rest.
#![tactic(auto)]

#[cfg(test)]
mod beside;
#[cfg(test)]
mod desk;
#[cfg(test)]
mod ends;
#[cfg(test)]
mod enqueuing;
#[cfg(test)]
mod generated;
#[cfg(test)]
mod runs;
#[cfg(test)]
mod signals;
#[cfg(test)]
mod threads;
