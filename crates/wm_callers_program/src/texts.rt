//! The texts of a log without observers, as they are written once the log is whole.
ghost use Rattle.std.specs.Prelude.{◌≡◌, ◌||◌, [], OnOk};
ghost use Rattle.wm_callers_program.specs.LogTexts.{hushes, plain_text};
ghost use Rattle.wm_io.specs.Writing.{IsAppended, WriteCause};
ghost use Rattle.wm_ended.specs.Ended.{IsPartAppended};
ghost use Rattle.wm_texts.specs.Texts.{text_of};

use std::alloc::Global;
use wm_io::{Sink, WriteFault, write_front};
use wm_machine::{Command, Event};
use wm_texts::event_text;

/// Whether an event hushes what is written.
fn hushes(event: &Event) -> bool
    ensures { result ≡ hushes event.now }
{
    match event {
        Event::Command { command, .. } => matches!(command.value(), Command::Hush),
        _ => false,
    }
}

/// Whether only summaries are written after an event, where they were before or weren't.
fn is_hushed_after(hushed: bool, event: &Event) -> bool
    ensures { result ≡ (hushed || hushes event.now) }
{
    hushed || hushes(event)
}

/// Writes the text of an event of which nobody is told.
fn write_event<W: Sink>(
    alloc: Global,
    event: &Event,
    hushed: bool,
    sink: &mut W,
) -> Result<(), WriteFault>
    ensures front { IsPartAppended (W.given sink.old) (W.given sink.new) (text_of event.now [] hushed) }
    ensures all { OnOk result (IsAppended (W.given sink.old) (W.given sink.new) (text_of event.now [] hushed)) }
    ensures cause { WriteCause result (W.faults sink.old) (W.faults sink.new) }
{
    let Ok(text) = event_text(alloc, event, &[], hushed) else {
        return Err(WriteFault::Memory);
    };
    write_front(sink, &text).1
}

/// Writes the text of each event of a log without observers, in order; only summaries are written once
/// it is hushed.
pub(crate) fn write_log<W: Sink>(
    alloc: Global,
    hushed: bool,
    log: &[Event],
    sink: &mut W,
) -> Result<(), WriteFault>
    ensures front { IsPartAppended (W.given sink.old) (W.given sink.new) (plain_text hushed log.now) }
    ensures all { OnOk result (IsAppended (W.given sink.old) (W.given sink.new) (plain_text hushed log.now)) }
    ensures cause { WriteCause result (W.faults sink.old) (W.faults sink.new) }
{
    let mut is_hushed = hushed;
    for event in log {
        is_hushed = is_hushed_after(is_hushed, event);
        write_event(alloc, event, is_hushed, sink)?;
    }
    Ok(())
}
