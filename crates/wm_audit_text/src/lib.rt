//! The text of an audit: the lines of hands, rows and events, and then what was written.
//!
//! [`header_line`], [`row_line`], [`event_line`] and [`end_line`] write its lines, and [`audit_text`] the
//! whole of it; [`header_of`], [`row_of`], [`entry_of`] and [`end_of`] read a line, where it is spelled as
//! these write it. The definitions are `specs/Audits.antt` and `specs/Lines.antt`, with `Headers`,
//! `StoredRows`, `Entries` and `Fields`; [`laws`] says how the two ways belong together. A command in it
//! is spelled as wm_spelling spells it.
#![tactic(auto)]

mod audits;
mod entries;
pub mod entry;
mod events;
mod fields;
mod headers;
pub mod laws;
pub mod lines;
mod ranges;
mod stored;

pub use audits::{audit_text, next_line};
pub use entry::Entry;
pub use headers::Header;
pub use lines::{end_line, end_of, entry_of, event_line, header_line, header_of, row_line, row_of};
