//! Reads a case file.
ghost use Rattle.std.specs.Prelude.{◌<◌};

use crate::holds::{Hold, Place};
use crate::part::{Failing, Part};
use crate::row::read_row;
use serde_json::Value;
use std::alloc::{AllocError, Global};
use thiserror::Error;

/// What is wrong with a line of a case file.
#[derive(Debug, Drop, Error)]
pub enum LineFault {
    #[error("a case begins with its name, a colon and what it shows")]
    Header,
    #[error("no case begins before this line")]
    NoCase,
    #[error("no line begins with this word")]
    NoSuchWord,
    #[error("the words of a command line are a JSON list of texts")]
    Words,
    #[error("a call moves at least one byte")]
    Moves,
    #[error("calls fail by the names source, sink and keeper, each with numbers from 1")]
    Fails,
    #[error("a point is held until another one: `line N`, or `turn K of run R`")]
    Hold,
    #[error("a text stands so many times as `N times | TEXT` or `N times > TEXT`")]
    Times,
    #[error("bytes are pairs of hexadecimal digits")]
    Hex,
    #[error("a row is a JSON object of a row's fields")]
    Row,
    #[error(transparent)]
    Memory(#[from(alloc)] AllocError),
}

/// Why a case file is refused: the number of the line, counted from 1, and what is wrong with it.
#[derive(Debug, Drop, Error)]
#[error("{line}: {fault}")]
pub struct FileFault {
    pub line: usize,
    pub fault: LineFault,
}

/// The parts of a case file, in order.
pub fn read_parts(alloc: Global, text: &str) -> Result<Vec<Part>, FileFault> {
    let mut parts = Vec::new(alloc);
    for (index, line) in text.lines().enumerate() {
        if let Err(fault) = read_line(alloc, &mut parts, line) {
            let line = index.saturating_add(1);
            return Err(FileFault { line, fault });
        }
    }
    Ok(parts)
}

/// Reads a line, which begins a part or says more of the last one.
fn read_line(alloc: Global, parts: &mut Vec<Part>, line: &str) -> Result<(), LineFault> {
    if line.is_empty() || line.starts_with('#') {
        return Ok(());
    }
    let (word, rest) = line.split_once(' ').unwrap_or((line, ""));
    if word == "case" {
        let name = case_name(alloc, rest)?;
        parts.push(Part::new(alloc, Some(name))?)?;
        return Ok(());
    }
    if parts.is_empty() {
        return Err(LineFault::NoCase);
    }
    if word == "then" {
        parts.push(Part::new(alloc, None)?)?;
        return Ok(());
    }
    match parts.last_mut() {
        Some(part) => read_more(alloc, part, word, rest),
        None => Err(LineFault::NoCase),
    }
}

/// The name of a case whose first line goes on with this text.
fn case_name(alloc: Global, rest: &str) -> Result<String, LineFault> {
    match rest.split_once(": ") {
        Some((name, shows)) if !name.is_empty() && !shows.is_empty() => {
            Ok(String::from_str(alloc, name)?)
        }
        _ => Err(LineFault::Header),
    }
}

/// Reads a line that says more of a part.
fn read_more(alloc: Global, part: &mut Part, word: &str, rest: &str) -> Result<(), LineFault> {
    match word {
        "row" => {
            let row = read_row(alloc, rest)?;
            part.rows.push(row)?;
        }
        "words" => part.words = read_words(alloc, rest)?,
        "brief" => part.brief = true,
        "moves" => set_moves(part, rest)?,
        "fails" => {
            let failing = read_failing(alloc, rest)?;
            part.failing.push(failing)?;
        }
        "hold" => {
            let hold = read_hold(rest).ok_or(LineFault::Hold)?;
            part.holds.push(hold)?;
        }
        "hex" => {
            let bytes = hex::decode(alloc, rest).map_err(|_| LineFault::Hex)?;
            part.script.extend_from_slice(&bytes)?;
        }
        "|" | ">" => append(&mut part.script, word, rest)?,
        _ => append_times(&mut part.script, word, rest)?,
    }
    Ok(())
}

/// The words of a command line.
fn read_words(alloc: Global, rest: &str) -> Result<Vec<String>, LineFault> {
    let value = Value::from_str(alloc, rest).map_err(|_| LineFault::Words)?;
    let mut words = Vec::new(alloc);
    for item in value.as_array().ok_or(LineFault::Words)? {
        let word = item.as_str().ok_or(LineFault::Words)?;
        words.push(String::from_str(alloc, word)?)?;
    }
    Ok(words)
}

/// Sets how many bytes a call moves at most.
fn set_moves(part: &mut Part, rest: &str) -> Result<(), LineFault> {
    match rest.parse::<u32>() {
        Ok(moves) if moves > 0 => {
            part.moves = moves as usize;
            Ok(())
        }
        _ => Err(LineFault::Moves),
    }
}

/// What a run has outside.
#[derive(Clone, Copy)]
enum Object {
    Source,
    Sink,
    Keeper,
}

impl Object {
    fn named(word: &str) -> Result<Object, LineFault> {
        match word {
            "source" => Ok(Object::Source),
            "sink" => Ok(Object::Sink),
            "keeper" => Ok(Object::Keeper),
            _ => Err(LineFault::Fails),
        }
    }
}

/// The failing calls of a line, as `source 1 sink 2 3`; none where it says nothing.
fn read_failing(alloc: Global, rest: &str) -> Result<Failing, LineFault> {
    let mut failing = Failing::none(alloc);
    failing.text.push_str(rest)?;
    let mut object = None;
    let mut is_numbered = true;
    for word in rest.split_whitespace() {
        match word.parse::<u32>() {
            Ok(call) => {
                add_call(&mut failing, object, call)?;
                is_numbered = true;
            }
            Err(_) if is_numbered => {
                object = Some(Object::named(word)?);
                is_numbered = false;
            }
            Err(_) => return Err(LineFault::Fails),
        }
    }
    if is_numbered {
        Ok(failing)
    } else {
        Err(LineFault::Fails)
    }
}

/// Adds the number of a failing call of source, sink or keeper.
fn add_call(failing: &mut Failing, object: Option<Object>, call: u32) -> Result<(), LineFault> {
    if call == 0 {
        return Err(LineFault::Fails);
    }
    match object {
        Some(Object::Source) => failing.source.push(call)?,
        Some(Object::Sink) => failing.sink.push(call)?,
        Some(Object::Keeper) => failing.keeper.push(call)?,
        None => return Err(LineFault::Fails),
    }
    Ok(())
}

/// That a point is held until another one; none where it is out of form.
fn read_hold(rest: &str) -> Option<Hold> {
    let (held, until) = rest.split_once(" until ")?;
    Some(Hold {
        held: read_place(held)?,
        until: read_place(until)?,
    })
}

/// A point as it is named, as `line 3` or `turn 0 of run 1`.
fn read_place(words: &str) -> Option<Place> {
    let (word, rest) = words.split_once(' ')?;
    match word {
        "line" => Some(Place::Line(rest.parse().ok()?)),
        "turn" => {
            let (k, run) = rest.split_once(" of run ")?;
            Some(Place::Turn {
                run: run.parse().ok()?,
                k: k.parse().ok()?,
            })
        }
        _ => None,
    }
}

/// Appends a text, after `|` with a line feed and after `>` without.
fn append(script: &mut Vec<u8>, mark: &str, text: &str) -> Result<(), LineFault> {
    script.extend_from_slice(text.as_bytes())?;
    match mark {
        "|" => {
            script.push(b'\n')?;
            Ok(())
        },
        ">" => Ok(()),
        _ => Err(LineFault::Times),
    }
}

/// Appends a text so many times, as `N times | TEXT`.
fn append_times(script: &mut Vec<u8>, word: &str, rest: &str) -> Result<(), LineFault> {
    let Ok(times) = word.parse::<u32>() else {
        return Err(LineFault::NoSuchWord);
    };
    let marked = rest.strip_prefix("times ").ok_or(LineFault::Times)?;
    let (mark, text) = marked.split_once(' ').unwrap_or((marked, ""));
    for _ in 0..times {
        append(script, mark, text)?;
    }
    Ok(())
}
