//! The whole text of an audit, and how it is cut into lines.
ghost use Rattle.std.specs.Prelude.{◌≡◌, ◌++◌, ◌==◌, length, option_map, position, IfOk, OnOk};
ghost use Rattle.std.specs.List.{AllByRecursion};
ghost use Rattle.wm_audit_text.specs.Audits as audits;
ghost use Rattle.wm_audit_text.specs.Lines.{HasCanonical, IsToldCanonical, IsToldRow};
ghost use Rattle.wm_machine.specs.Opened.{AreFresh};

use crate::lines::{end_line, event_line, header_line, row_line};
use std::alloc::{AllocError, Global};
use wm_keeper::Row;
use wm_machine::{Event, Instance};

/// The byte that ends a line.
const LF: u8 = b'\n';

/// The whole text: the line of the hands, those of the rows, those of the events, the line before the
/// text, and then the text.
pub fn audit_text(
    alloc: Global,
    rows: &[Row],
    hands: &[Instance],
    log: &[Event],
    text: &[u8],
) -> Result<Vec<u8>, AllocError>
    requires { AllByRecursion (λ row. length row.id ≡ 16) rows.now }
    ensures text { IfOk result (λ bytes. bytes.items ≡ audits.audit_text rows.now hands.now log.now text.now) }
    ensures spelled { OnOk result (AreFresh hands.now → AllByRecursion HasCanonical log.now
        → audits.IsSpelled rows.now hands.now log.now text.now) }
{
    let mut bytes = header_line(alloc, hands, rows.len() as u64)?;
    bytes.push(LF)?;
    add_rows(&mut bytes, alloc, rows)?;
    add_events(&mut bytes, alloc, log)?;
    let end = end_line(alloc, text.len() as u64)?;
    add_line(&mut bytes, end.as_slice())?;
    bytes.extend_from_slice(text)?;
    Ok(bytes)
}

/// Adds the lines of rows.
fn add_rows(bytes: &mut Vec<u8>, alloc: Global, rows: &[Row]) -> Result<(), AllocError>
    requires { AllByRecursion (λ row. length row.id ≡ 16) rows.now }
    ensures lines { OnOk result (bytes.new.items ≡ bytes.old.items ++ audits.row_lines rows.now) }
    ensures told { OnOk result (AllByRecursion IsToldRow rows.now) }
{
    for row in rows {
        let line = row_line(alloc, row)?;
        add_line(bytes, line.as_slice())?;
    }
    Ok(())
}

/// Adds the lines of events.
fn add_events(bytes: &mut Vec<u8>, alloc: Global, log: &[Event]) -> Result<(), AllocError>
    ensures lines { OnOk result (bytes.new.items ≡ bytes.old.items ++ audits.event_lines log.now) }
    ensures told { OnOk result (AllByRecursion IsToldCanonical log.now) }
{
    for event in log {
        let line = event_line(alloc, event)?;
        add_line(bytes, line.as_slice())?;
    }
    Ok(())
}

/// Adds a line, and LF.
fn add_line(bytes: &mut Vec<u8>, line: &[u8]) -> Result<(), AllocError>
    ensures { OnOk result (bytes.new.items ≡ bytes.old.items ++ audits.with_lf line.now) }
{
    bytes.extend_from_slice(line)?;
    Ok(bytes.push(LF)?)
}

/// The first line of bytes, without its LF, and what stands after that; none where there is no LF.
#[tactic(auto, using(crate::proofs::Cuts::line_ends))]
pub fn next_line(bytes: &[u8]) -> Option<(&[u8], &[u8])>
    ensures { audits.next_line bytes.now ≡ option_map (λ cut. (cut.0.now, cut.1.now)) result }
{
    match find_lf(bytes) {
        Some(end) => Some((&bytes[..end], &bytes[end + 1..])),
        None => None,
    }
}

/// The index of the first LF.
fn find_lf(bytes: &[u8]) -> Option<usize>
    ensures { result ≡ position (λ byte. byte == LF) bytes.now }
{
    bytes.iter().position(|byte| *byte == LF)
}
