//! Reads the files of a folder that a program goes through.

use std::alloc::Global;
use std::rt::Files;
use std::{fs, io};

/// A file: its name and its text.
#[derive(Drop)]
pub struct TextFile {
    pub name: String,
    pub text: String,
}

/// The names of the files of a folder that end so, in order.
fn names<R: Files + Alloc<A = Global> + Clone + Drop>(
    rt: &R,
    folder: &str,
    ending: &str,
) -> io::Result<Vec<String>> {
    let mut names = Vec::new(rt.alloc());
    for entry in fs::read_dir(rt, folder)? {
        let entry = entry?;
        if entry.file_name().ends_with(ending) {
            names.push(String::from_str(rt.alloc(), entry.file_name())?)?;
        }
    }
    names.sort()?;
    Ok(names)
}

/// The files of a folder whose names end so, in the order of their names.
pub fn text_files<R: Files + Alloc<A = Global> + Clone + Drop>(
    rt: &R,
    folder: &str,
    ending: &str,
) -> io::Result<Vec<TextFile>> {
    let mut files = Vec::new(rt.alloc());
    for name in names(rt, folder, ending)? {
        let path = format!(in rt.alloc(); "{folder}/{name}")?;
        let text = fs::read_to_string(rt, path.as_str())?;
        files.push(TextFile { name, text })?;
    }
    Ok(files)
}
