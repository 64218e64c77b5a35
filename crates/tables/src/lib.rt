//! The tables of single calls: [`print_tables`] reads the tables where a program runs, makes the call of
//! each row, and prints each row whose call answers something else than the row says, with what it
//! answers, and how many rows there are of each call. The program `cases` has it do so.
//!
//! A table ends in `.rows`; the tables are read in the order of their names. The folder `faulty` has
//! rows that are wrong: what is printed for each is what came, or why it is refused.
#![tactic(auto)]

mod calls;
mod infos;
mod lines;
mod names;
mod notes;
mod records;
mod rows;
mod sessions;
mod spellings;
mod texts;

use crate::calls::difference;
use case_files::fields::{RowFault, given, text};
use case_files::files::{TextFile, text_files};
use serde_json::Value;
use std::alloc::{AllocError, Global};
use std::collections::BTreeMap;
use std::io;
use std::rt::Runtime;

/// How many rows there are of each call, and how many of all rows are as they say, and aren't.
#[derive(Drop)]
struct Tally {
    calls: BTreeMap<String, u64>,
    right: u64,
    wrong: u64,
}

impl Tally {
    fn new(alloc: Global) -> Tally {
        Tally {
            calls: BTreeMap::new(alloc),
            right: 0,
            wrong: 0,
        }
    }

    /// Counts a row of this call.
    fn add(&mut self, alloc: Global, call: &str) -> Result<(), AllocError> {
        let rows = match self.calls.get(call) {
            Some(rows) => rows.saturating_add(1),
            None => 1,
        };
        let call = String::from_str(alloc, call)?;
        self.calls.insert(call, rows)?;
        Ok(())
    }
}

/// What a line of a table is read as, and what differs.
fn checked(alloc: Global, tally: &mut Tally, line: &str) -> Result<Option<String>, RowFault> {
    let row = given(Value::from_str(alloc, line))?;
    tally.add(alloc, text(&row, "call")?)?;
    difference(alloc, &row)
}

/// What is to be told of a line of a table, if anything is.
fn told_of(alloc: Global, tally: &mut Tally, line: &str) -> Result<Option<String>, AllocError> {
    match checked(alloc, tally, line) {
        Ok(None) => {
            tally.right = tally.right.saturating_add(1);
            Ok(None)
        }
        Ok(Some(came)) => {
            tally.wrong = tally.wrong.saturating_add(1);
            Ok(Some(format!(in alloc; "it answers {came}")?))
        }
        Err(fault) => {
            tally.wrong = tally.wrong.saturating_add(1);
            Ok(Some(String::from_str(alloc, fault.text())?))
        }
    }
}

/// What is to be told of the rows of a table.
fn tell(alloc: Global, tally: &mut Tally, table: &TextFile) -> Result<String, AllocError> {
    let name = table.name.as_str();
    let mut told = String::new(alloc);
    for (index, line) in table.text.as_str().lines().enumerate() {
        if line.is_empty() || line.starts_with('#') {
            continue;
        }
        let number = index.saturating_add(1);
        if let Some(what) = told_of(alloc, tally, line)? {
            told.push_str(format!(in alloc; "{name}:{number}: {what}\n")?.as_str())?;
        }
    }
    Ok(told)
}

/// Prints what is to be told of the tables of a folder, and answers the count of their rows.
fn print_folder<R: Runtime + AllocGlobal>(rt: &R, folder: &str) -> io::Result<Tally> {
    let alloc = rt.alloc();
    let mut tally = Tally::new(alloc);
    for table in text_files(rt, folder, ".rows")? {
        rt.print(tell(alloc, &mut tally, &table)?)?;
    }
    Ok(tally)
}

/// Prints how many rows there are of each call.
fn print_calls<R: Print>(rt: &R, tally: &Tally) -> io::Result<()> {
    for (call, rows) in tally.calls.iter() {
        println!(rt; "rows of {call}: {rows}")?;
    }
    Ok(())
}

/// Prints what is to be told of the tables, how many rows there are of each call, and what comes of
/// the rows that are wrong. Answers whether each row is as it says, and none that is wrong is.
pub fn print_tables<R: Runtime + AllocGlobal>(rt: &R) -> io::Result<bool> {
    let tables = print_folder(rt, ".")?;
    print_calls(rt, &tables)?;
    let faulty = print_folder(rt, "faulty")?;
    Ok(tables.wrong == 0 && faulty.right == 0)
}
