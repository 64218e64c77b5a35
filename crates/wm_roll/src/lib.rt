//! The roll: which runs are out, and the tokens by which those who have them prove it.
//!
//! A [`Roll`] is a list of [`Part`]s that contracts alone see. Giving a part to it makes a
//! [`Token`], which has no way to be let go: it is taken back by the same roll, and then its part
//! is known to stand on the list, however many threads gave and took meanwhile. So a roll that
//! stands behind a lock still tells who is out.
//!
//! The roll and its tokens are seats at a table with one word, which is only ever read.
#![tactic(auto)]

pub mod part;
pub mod roll;
mod steps;
pub mod token;
mod view;

pub use part::Part;
pub use roll::Roll;
pub use token::Token;
