//! The export of a run's log.
ghost use Rattle.std.specs.List.{AllByRecursion};
ghost use Rattle.std.specs.Prelude.{◌≡◌, map, IfOk};
ghost use Rattle.wm_audit.specs.Exported.{IsOpened};
ghost use Rattle.wm_audit.specs.Verdicts.{IsVerdict};
ghost use Rattle.wm_audit.specs.declared.verdict.Verdict.TheVariants.{Sound};
ghost use Rattle.wm_audit_text.specs.Audits.{audit_text};
ghost use Rattle.wm_audit_text.specs.Lines.{HasCanonical};
ghost use Rattle.wm_machine.specs.Replay.{Replay};
ghost use Rattle.wm_machine.specs.Rows.{row_of, rows_of};
ghost use Rattle.wm_machine.specs.Valid.{IsRecord};
ghost use Rattle.wm_machine.specs.declared.state.State.{State};
ghost use Rattle.wm_texts.specs.Texts.{log_text};

use std::alloc::{AllocError, Global};
use wm_audit_text::audit_text;
use wm_collections::Items;
use wm_keeper::Row;
use wm_machine::{Event, Record, State};
use wm_rows::to_row;

/// The audit of a run: of the rows and the hands of its first state, which is one that rows open to with
/// at most 10,000 instances, of its log, each of whose commands is the one that its own spelling is read
/// as, and of the text that was written for it. `check` finds it sound where the log replays from the
/// first state and the text is that of its events. Memory that is refused is the only error.
pub fn export(
    alloc: Global,
    first: &State,
    log: &[Event],
    text: &[u8],
) -> Result<Vec<u8>, AllocError>
    requires opened { IsOpened first.now }
    requires canonical { AllByRecursion HasCanonical log.now }
    ensures text { IfOk result (λ bytes. bytes.items
        ≡ audit_text (rows_of first.entry.now) first.entry.now.instances log.entry.now text.entry.now) }
    ensures sound { IfOk result (λ bytes. (last : State) → Replay first.entry.now log.entry.now last
        → text.entry.now ≡ log_text first.entry.now log.entry.now → IsVerdict bytes.items (Sound last)) }
{
    let rows = stored_rows(alloc, first.works.as_slice())?;
    let hands = first.instances.as_slice();
    audit_text(alloc, rows.as_slice(), hands, log, text)
}

/// The rows of these records.
fn stored_rows(alloc: Global, works: &[Record]) -> Result<Items<Row>, AllocError>
    requires { AllByRecursion IsRecord works.now }
    ensures { IfOk result (λ rows. rows ≡ map row_of works.entry.now) }
{
    let mut rows = Items::new(alloc);
    for work in works {
        rows.push(to_row(alloc, work)?)?;
    }
    Ok(rows)
}
