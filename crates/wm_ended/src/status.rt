//! How a run ended, with its code and its text.
ghost use Rattle.std.specs.Prelude.{◌≡◌, IfOk, string_bytes};
ghost use Rattle.wm_ended.specs.Causes.{ended_by};
ghost use Rattle.wm_ended.specs.Status.{code_of, status_text, limit_name, row_fault_name, bad_store_text};

use std::alloc::{AllocError, Global};
use wm_io::WriteFault;
use wm_keeper::KeepFault;
use wm_script::Limit;
use wm_table::{BeginFault, Trouble};

/// How a run ended.
#[derive(Clone, Copy, Debug, PartialEq, Eq)]
pub enum Status {
    /// The script was read to its end, all its lines were executed and everything was written.
    Done,
    /// The words of the command line aren't in the grammar.
    Usage,
    /// The source failed.
    SourceFault,
    /// The script passes this limit.
    ScriptTooLong(Limit),
    /// The keeper failed.
    KeeperFault,
    /// The store has a row that can't be opened: its number, and whether the row is out of form.
    BadStore { seq: i64, bad_row: bool },
    /// The sink failed.
    SinkFault,
    /// Memory was refused.
    Memory,
}

impl From<KeepFault> for Status {
    ghost use Rattle.std.specs.Prelude.{◌≡◌};
    ghost use Rattle.wm_ended.specs.Causes.{status_by_keeper};

    ghost from_gives = { λ fault status. status ≡ status_by_keeper fault };

    fn from(fault: KeepFault) -> Status {
        match fault {
            KeepFault::Failed => Status::KeeperFault,
            KeepFault::Memory => Status::Memory,
        }
    }
}

impl From<BeginFault> for Status {
    ghost use Rattle.std.specs.Prelude.{◌≡◌};
    ghost use Rattle.wm_ended.specs.Causes.{status_by_begin};

    ghost from_gives = { λ fault status. status ≡ status_by_begin fault };

    fn from(fault: BeginFault) -> Status {
        match fault {
            BeginFault::Bad { seq, bad_row } => Status::BadStore { seq, bad_row },
            BeginFault::KeeperFault => Status::KeeperFault,
            BeginFault::Memory | BeginFault::CommitMemory => Status::Memory,
        }
    }
}

impl Status {
    /// How it ends where a table met this trouble, or else the last write was answered so.
    pub fn of_end(trouble: Option<Trouble>, written: Result<(), WriteFault>) -> Status
        ensures { result ≡ ended_by trouble written }
    {
        match trouble {
            Some(Trouble::KeeperFault) => Status::KeeperFault,
            Some(Trouble::Memory) => Status::Memory,
            None => match written {
                Ok(()) => Status::Done,
                Err(WriteFault::Failed) => Status::SinkFault,
                Err(WriteFault::Memory) => Status::Memory,
            },
        }
    }

    /// The exit status of the program.
    pub fn code(&self) -> u8
        ensures { result ≡ code_of self.now }
    {
        match self {
            Status::Done => 0,
            Status::Usage => 2,
            Status::SourceFault => 3,
            Status::SinkFault => 4,
            Status::KeeperFault => 5,
            Status::BadStore { .. } => 6,
            Status::ScriptTooLong(_) => 7,
            Status::Memory => 8,
        }
    }

    /// What the program writes on standard error, without the line's end. It is empty for `Done`.
    pub fn text(&self, alloc: Global) -> Result<String, AllocError>
        ensures { IfOk result (λ text. string_bytes text ≡ status_text self.now) }
    {
        match self {
            Status::Done => Ok(String::new(alloc)),
            Status::Usage => String::from_str(
                alloc,
                "usage: work --store NAME [--workers N] [--generate SEED]",
            ),
            Status::SourceFault => String::from_str(alloc, "read failed"),
            Status::SinkFault => String::from_str(alloc, "write failed"),
            Status::KeeperFault => String::from_str(alloc, "store failed"),
            Status::BadStore { seq, bad_row } => bad_store_text(alloc, *seq, *bad_row),
            Status::ScriptTooLong(limit) => {
                format!(in alloc; "script too long: {}", limit_name(*limit))
            }
            Status::Memory => String::from_str(alloc, "out of memory"),
        }
    }
}

fn limit_name(limit: Limit) -> &'static str
    ensures { result.now ≡ limit_name limit }
{
    match limit {
        Limit::Bytes => "bytes",
        Limit::Line => "line",
        Limit::Lines => "lines",
    }
}

fn row_fault_name(bad_row: bool) -> &'static str
    ensures { result.now ≡ row_fault_name bad_row }
{
    if bad_row { "bad row" } else { "unsound" }
}

fn bad_store_text(alloc: Global, seq: i64, bad_row: bool) -> Result<String, AllocError>
    ensures { IfOk result (λ text. string_bytes text ≡ bad_store_text seq bad_row) }
{
    format!(in alloc; "bad store: row {seq}: {}", row_fault_name(bad_row))
}
