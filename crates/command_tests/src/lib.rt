//! Tests of commands in states that no table of plain values holds: what the policy of a unique name
//! comes to, and the checks of an enqueue and their order, up to 100,000 works; and of the table that
//! executes them, whose runs the test drives itself; and what a seed gives.
//!
//! It is otherwise empty.
#![tactic(auto)]

#[cfg(test)]
mod checks;
#[cfg(test)]
mod commands;
#[cfg(test)]
mod generated;
#[cfg(test)]
mod table;
#[cfg(test)]
mod unique;
#[cfg(test)]
mod wakes;
