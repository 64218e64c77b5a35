//! That what is written is in the range of its type: it is known of a number once it is read.
ghost use Rattle.std.specs.Prelude.{◌≡◌, ◌^◌, ◌<◌, length, FitsSigned, Some};
ghost use Rattle.std.specs.Int.{w64};
ghost use Rattle.std.specs.List.{AllByRecursion};
ghost use Rattle.uuid.specs.Text.{hyphenated_text, lower, parsed};
ghost use Rattle.wm_audit_text.specs.Ranges.{IsEndInRange, IsInRange, IsRowInRange, numbers_of};
ghost use Rattle.wm_data.specs.Size.{IsData};

use uuid::Uuid;
use wm_data::Data;
use wm_keeper::Row;
use wm_machine::{End, Event};

/// Reads the numbers and the Data of an event.
pub(crate) fn read_event(event: &Event)
    ensures { IsInRange event.now }
{
    match event {
        Event::Command { line, .. } => read_small(*line),
        Event::Start {
            instance,
            input,
            ..
        } => {
            read_small(*instance);
            read_data(input);
        }
        Event::Turn {
            progress: Some(progress),
            ..
        } => read_data(progress),
        Event::Finish { end, .. } => read_end(end),
        _ => {}
    }
}

/// Reads the output of an end.
fn read_end(end: &End)
    ensures { IsEndInRange end.now }
{
    match end {
        End::Success(output) => read_data(output),
        End::Failure(output) => read_data(output),
        End::Retry => {}
    }
}

/// Reads a number of 32 bits.
fn read_small(number: u32)
    ensures { number < 2 ^ 32 }
{
    let _number = number;
}

/// Reads Data.
fn read_data(told: &Data)
    ensures { IsData told.now }
{
    let _size = told.size();
}

/// Reads the numbers and the id of a row.
pub(crate) fn read_row(row: &Row)
    requires { length row.now.id ≡ 16 }
    ensures range { IsRowInRange row.now }
    ensures own { parsed (hyphenated_text lower row.now.id) ≡ Some row.now.id }
{
    let numbers = numbers_of(row);
    read_each(&numbers);
    read_each(row.prior.as_slice());
    read_id(row.id.as_slice());
}

/// Reads an id by its sixteen bytes.
fn read_id(bytes: &[u8])
    requires { length bytes.now ≡ 16 }
    ensures { parsed (hyphenated_text lower bytes.now) ≡ Some bytes.now }
{
    let id = id_of(bytes);
    let mut buffer = Uuid::encode_buffer();
    let _text = id.hyphenated().encode_lower(&mut buffer);
}

/// The id of sixteen bytes.
pub(crate) fn id_of(bytes: &[u8]) -> Uuid
    requires { length bytes.now ≡ 16 }
    ensures { result ≡ bytes.now }
{
    Uuid::from_slice(bytes).unwrap_or(Uuid::nil())
}

/// The numbers of a row, one after another.
fn numbers_of(row: &Row) -> [i64; 20]
    ensures { result ≡ numbers_of row.now }
{
    [
        row.version,
        row.seq,
        row.kind,
        row.period,
        row.flex,
        row.delay,
        row.policy,
        row.wait,
        row.merger,
        row.network,
        row.flags,
        row.phase,
        row.attempt,
        row.backoff_n,
        row.runs,
        row.generation,
        row.enqueued_at,
        row.next_at,
        row.keep_for,
        row.finished_at,
    ]
}

/// Reads numbers, one after another.
fn read_each(numbers: &[i64])
    ensures { AllByRecursion (FitsSigned w64) numbers.now }
{
    for number in numbers {
        let _number = *number;
    }
}
