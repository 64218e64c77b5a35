//! The talk: a line is read, asked and answered, and then the next one.
ghost use Rattle.std.specs.Prelude.{[], IfOk};
ghost use Rattle.wm_live.specs.Asking.{MayAsk};

use crate::clock::Reading;
use crate::lines::Lines;
use std::alloc::{AllocError, Global};
use std::rt::Clock;
use wm_asks::Ask;
use wm_ended::Status;
use wm_io::{Sink, Source, WriteFault, write_front};
use wm_keeper::Keeper;
use wm_live::Live;
use wm_live_program::ask_of;
use wm_script::{Limit, first_line};
use wm_table::{Mark, Trouble};
use wm_worker::Worker;

/// The number of an ask that no line makes.
const NO_LINE: u32 = 0;

/// Answers line after line, numbered from 1, until the source is at its end.
pub fn talk<R: Clock, S: Source, W: Sink, K: Keeper + Drop, B: Worker + Drop, M: Mark>(
    rt: &R,
    alloc: Global,
    mut live: Live<K, B, M>,
    lines: &mut Lines<S>,
    sink: &mut W,
) -> Result<(), Status> {
    'lines: for number in 1..u32::MAX {
        let line = match lines.next() {
            Ok(Some(line)) => line,
            Ok(None) => {
                drop(live.close());
                return Ok(());
            }
            Err(status) => return Err(closed(live, status)),
        };
        live = answer(rt, alloc, live, number, &line, sink)?;
    }
    Err(closed(live, Status::ScriptTooLong(Limit::Lines)))
}

/// Sets the moment to the system's, and then answers a line.
fn answer<R: Clock, W: Sink, K: Keeper + Drop, B: Worker + Drop, M: Mark>(
    rt: &R,
    alloc: Global,
    live: Live<K, B, M>,
    number: u32,
    line: &[u8],
    sink: &mut W,
) -> Result<Live<K, B, M>, Status> {
    let live = ask(rt, live, NO_LINE, Ask::Tick, sink)?;
    match ask_in(alloc, line) {
        Ok(asked) => ask(rt, live, number, asked, sink),
        Err(_) => Err(closed(live, Status::Memory)),
    }
}

/// The ask of a line, which may be asked of a clock that was never asked before.
fn ask_in(alloc: Global, line: &[u8]) -> Result<Ask, AllocError>
    ensures { IfOk result (λ asked. MayAsk asked []) }
{
    ask_of(alloc, line)
}

/// Asks, with a reading of the system's clock, and writes what that puts behind the text.
fn ask<R: Clock, W: Sink, K: Keeper + Drop, B: Worker + Drop, M: Mark>(
    rt: &R,
    live: Live<K, B, M>,
    number: u32,
    asked: Ask,
    sink: &mut W,
) -> Result<Live<K, B, M>, Status>
    requires { MayAsk asked [] }
{
    let before = live.text().len();
    match live.ask(number, asked, &mut Reading::of(rt)) {
        Ok(answered) => {
            let (live, reply) = answered;
            drop(reply);
            match write(sink, number, &live.text()[before..]) {
                Ok(()) => Ok(live),
                Err(status) => Err(closed(live, status)),
            }
        }
        Err(end) => {
            write(sink, number, &end.text[before..])?;
            Err(status_of(end.trouble))
        }
    }
}

/// Writes what is new of the text: of an ask that no line makes without its answer, so the notes alone.
fn write<W: Sink>(sink: &mut W, number: u32, text: &[u8]) -> Result<(), Status> {
    let told = if number == NO_LINE && !text.is_empty() {
        first_line(text).1
    } else {
        text
    };
    match write_front(sink, told).1 {
        Ok(()) => Ok(()),
        Err(WriteFault::Failed) => Err(Status::SinkFault),
        Err(WriteFault::Memory) => Err(Status::Memory),
    }
}

/// The status with which a talk ends, whose driver is closed by that.
pub fn closed<K: Keeper + Drop, B: Worker + Drop, M: Mark>(
    live: Live<K, B, M>,
    status: Status,
) -> Status {
    drop(live.close());
    status
}

/// The status of a driver that ended.
pub fn status_of(trouble: Option<Trouble>) -> Status {
    match trouble {
        None => Status::Done,
        Some(Trouble::KeeperFault) => Status::KeeperFault,
        Some(Trouble::Memory) => Status::Memory,
    }
}
