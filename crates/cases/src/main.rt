//! The worked cases of whole runs, and the tables of single calls: the program reads the case files
//! where it runs, has [`wm_outcome::program`] do each case over a source, a sink and a keeper in memory,
//! and prints what came of it; and then what comes of the tables ([`tables`]). What it has to print stands
//! in the crate's file `stdout`, written by hand.
//!
//! A case file ends in `.cases`; the files are read in the order of their names. The folder
//! `faulty` has files that are out of form: what is printed for each is why it is refused.
//! `data/README.md` has the form of a case and of its outcome, and that of a row of a table.
#![tactic(auto)]

mod audit;
mod ends;
mod holds;
mod outcome;
mod part;
mod reader;
mod row;

use crate::outcome::tell_cases;
use crate::reader::read_parts;
use case_files::files::{TextFile, text_files};
use std::alloc::{AllocError, Global};
use std::io;
use std::process::ExitCode;
use std::rt::Runtime;
use std::sync::Wait;
use std::thread::Threads;
use tables::print_tables;

/// What comes of the cases of a file, or why the file is refused; and whether it is in form.
fn told<R: Threads + Wait + Sync>(
    rt: &R,
    alloc: Global,
    file: &TextFile,
) -> Result<(String, bool), AllocError> {
    match read_parts(alloc, file.text.as_str()) {
        Ok(parts) => Ok((tell_cases(rt, alloc, &parts)?, true)),
        Err(fault) => Ok((format!(in alloc; "{}:{fault}\n", file.name)?, false)),
    }
}

/// Prints what comes of the files of a folder, and answers whether each is in form, or is not.
fn print_folder<R: Runtime + AllocGlobal + Threads + Wait + Sync>(
    rt: &R,
    folder: &str,
    in_form: bool,
) -> io::Result<bool> {
    let mut as_wanted = true;
    for file in text_files(rt, folder, ".cases")? {
        let (text, is_in_form) = told(rt, rt.alloc(), &file)?;
        rt.print(text)?;
        as_wanted = as_wanted && is_in_form == in_form;
    }
    Ok(as_wanted)
}

/// Ends with status 1 where a case file is refused, or one that is out of form isn't, and where a row of
/// a table isn't as it says, or one that is wrong is.
fn main(rt: HostRuntime) -> io::Result<ExitCode> {
    let cases = print_folder(&rt, ".", true)?;
    let faulty = print_folder(&rt, "faulty", false)?;
    let tables = print_tables(&rt)?;
    Ok(ExitCode::from(u8::from(!(cases && faulty && tables))))
}
