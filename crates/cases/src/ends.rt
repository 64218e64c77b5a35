//! What is told of how a run, a test driver or callers ended.

use crate::row::row_text;
use case_files::events::event_words;
use std::alloc::{AllocError, Global};
use wm_bench::Hand;
use wm_keeper::MemoryKeeper;
use wm_machine::Event;
use wm_worker::Worker;

/// The most callers that the words may ask for.
const MOST_CALLERS: u32 = 64;

/// What is told of an end.
#[derive(Drop)]
pub struct End<'a, B> {
    /// Whether the table was begun.
    pub began: bool,
    /// Whether the commit of its opening was refused.
    pub at_opening: bool,
    pub log: &'a [Event],
    /// The callers of the log's first events, one for each; none where no callers called them.
    pub callers: &'a [u32],
    /// The workers that came back.
    pub hands: &'a [Hand<B>],
    pub keeper: &'a MemoryKeeper,
    /// The bytes that were written.
    pub written: &'a [u8],
}

/// Tells whether the table was begun, unless it is to be brief the log and the rows, and the bytes written.
pub fn tell_end<B: Worker>(
    alloc: Global,
    told: &mut String,
    end: &End<'_, B>,
    brief: bool,
) -> Result<(), AllocError> {
    told.push_str(beginning_of(end.began, end.at_opening))?;
    if !brief {
        tell_log(alloc, told, end.log, end.callers)?;
        tell_gone(told, end.hands)?;
        tell_rows(alloc, told, end.keeper)?;
    }
    if end.callers.iter().any(|caller| *caller != 0) {
        tell_sorted_bytes(alloc, told, end.written)
    } else {
        tell_bytes(alloc, told, end.written)
    }
}

/// Whether a table was begun, and where it wasn't whether the commit of its opening was refused.
fn beginning_of(began: bool, at_opening: bool) -> &'static str {
    match (began, at_opening) {
        (true, _) => "begun\n",
        (false, false) => "not begun\n",
        (false, true) => "not begun, at the opening\n",
    }
}

/// Tells the events of a log: those that callers called, and then all others.
fn tell_log(
    alloc: Global,
    told: &mut String,
    log: &[Event],
    callers: &[u32],
) -> Result<(), AllocError> {
    for caller in 0..MOST_CALLERS {
        tell_calls(alloc, told, log, callers, caller)?;
    }
    let (_, others) = log.split_at(callers.len().min(log.len()));
    tell_events(alloc, told, others, false)?;
    tell_events(alloc, told, others, true)
}

/// Tells those of a log's first events, each with its caller, that one caller called, in order.
fn tell_calls(
    alloc: Global,
    told: &mut String,
    log: &[Event],
    callers: &[u32],
    caller: u32,
) -> Result<(), AllocError> {
    for (event, by) in log.iter().zip(callers.iter()) {
        if *by == caller {
            let words = event_words(alloc, event)?;
            tell_line(
                told,
                "call ",
                format!(in alloc; "{caller} {words}")?.as_str(),
            )?;
        }
    }
    Ok(())
}

/// Tells the events of a log that are late reports, or those that aren't. Of events with the same words
/// one after another the first alone is told, with their number.
fn tell_events(
    alloc: Global,
    told: &mut String,
    log: &[Event],
    late: bool,
) -> Result<(), AllocError> {
    let mut words = String::new(alloc);
    let mut times: u64 = 0;
    for event in log {
        if matches!(event, Event::Late { .. }) != late {
            continue;
        }
        let next = event_words(alloc, event)?;
        if next != words {
            tell_event(alloc, told, words.as_str(), times)?;
            words = next;
            times = 0;
        }
        times = times.saturating_add(1);
    }
    tell_event(alloc, told, words.as_str(), times)
}

/// Tells an event that came so many times.
fn tell_event(alloc: Global, told: &mut String, words: &str, times: u64) -> Result<(), AllocError> {
    match times {
        0 => Ok(()),
        1 => tell_line(told, "event ", words),
        _ => tell_line(
            told,
            "event ",
            format!(in alloc; "{words}, {times} times")?.as_str(),
        ),
    }
}

/// Tells the rows kept.
fn tell_rows(alloc: Global, told: &mut String, keeper: &MemoryKeeper) -> Result<(), AllocError> {
    for row in keeper.rows() {
        let text = row_text(alloc, row)?;
        tell_line(told, "row ", text.as_str())?;
    }
    Ok(())
}

/// Tells the classes of the program's workers of which none came back.
fn tell_gone<B: Worker>(told: &mut String, hands: &[Hand<B>]) -> Result<(), AllocError> {
    for class in ["Echo", "Sum", "FailUntil", "RetryUntil", "Count", "Wait"] {
        if !hands.iter().any(|hand| hand.class.as_str() == class) {
            tell_line(told, "gone ", class)?;
        }
    }
    Ok(())
}

/// Tells one line.
pub fn tell_line(told: &mut String, begins: &str, text: &str) -> Result<(), AllocError> {
    told.push_str(begins)?;
    told.push_str(text)?;
    told.push('\n')
}

/// Tells the bytes written, each line after `|`, and what is left without a line feed after `>`.
pub fn tell_bytes(alloc: Global, told: &mut String, bytes: &[u8]) -> Result<(), AllocError> {
    for line in bytes.split_inclusive(|byte| *byte == b'\n') {
        told.push_str(shown(alloc, line)?.as_str())?;
    }
    Ok(())
}

/// The same, in the ascending order of the lines, which is the same whichever caller came first.
fn tell_sorted_bytes(alloc: Global, told: &mut String, bytes: &[u8]) -> Result<(), AllocError> {
    let mut lines = Vec::new(alloc);
    for line in bytes.split_inclusive(|byte| *byte == b'\n') {
        lines.push(shown(alloc, line)?)?;
    }
    lines.sort()?;
    for line in &lines {
        told.push_str(line.as_str())?;
    }
    Ok(())
}

/// What is told of a line that was written, or of what is left without a line feed.
fn shown(alloc: Global, line: &[u8]) -> Result<String, AllocError> {
    let text = String::from_utf8_lossy(alloc, line)?;
    match text.as_str().strip_suffix('\n') {
        Some(text) => format!(in alloc; "| {text}\n"),
        None => format!(in alloc; "> {}\n", text.as_str()),
    }
}
