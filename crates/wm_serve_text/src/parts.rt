//! What stands in a line of a session, part by part. Each part is read once.
ghost use Rattle.std.specs.Prelude.{◌≡◌, [], ◌∷◌, ◌++◌, map, option_map, IfErr, IfOk, Ok, OnOk};
ghost use Rattle.serde_json.specs.View.{items_view, view};
ghost use Rattle.wm_data.specs.DataRead.{item_list, read_data};
ghost use Rattle.wm_script.specs.Parts.{is_count};
ghost use Rattle.wm_serve_text.specs.Names.{may_name};
ghost use Rattle.wm_serve_text.specs.Parts.{data_at, each_run, IsUnread, or_fault, progress_at, run_in, run_of, runs_in, unread_for};

use serde_json::Value;
use std::alloc::{AllocError, Global};
use wm_collections::{Items, Text};
use wm_data::{Data, DataFault};
use wm_machine::LineFault;
use wm_script::has_only;

/// The most bytes that the name of a run has in a line.
const MAX_NAME_BYTES: usize = 64;

/// The most runs that a beat names.
const MAX_RUNS: usize = 1_000;

/// Why a part of a line isn't read.
#[derive(Debug, Drop)]
pub enum Unread {
    /// The line has this fault.
    Fault(LineFault),
    /// Memory was refused.
    Memory,
}

impl From<AllocError> for Unread {
    ghost use Rattle.std.specs.Prelude.{◌≡◌};
    ghost use Rattle.wm_serve_text.specs.declared.parts.Unread.TheVariants.{Memory};

    ghost from_gives = { λ _ unread. unread ≡ Memory };

    fn from(_refused: AllocError) -> Unread {
        Unread::Memory
    }
}

/// That the line isn't in the grammar.
pub(crate) fn bad() -> Unread
    ensures { result ≡ Unread.Fault LineFault.Bad }
{
    Unread::Fault(LineFault::Bad)
}

/// Whether a text may name a run: it has 1 to 64 bytes.
fn may_name(text: &str) -> bool
    ensures { result ≡ may_name text.now }
{
    !text.is_empty() && text.len() <= MAX_NAME_BYTES
}

/// The name of a run.
#[tactic(auto, unfolding(crate::specs::Parts::run_in))]
fn run_in(alloc: Global, value: &Value) -> Result<Text, Unread>
    ensures ok { IfOk result (λ run. run_in (view value.now) ≡ Ok run) }
    ensures err { IfErr result (IsUnread (run_in (view value.now))) }
{
    match value.as_str() {
        Some(text) if may_name(text) => Ok(Text::from_str(alloc, text)?),
        _ => Err(bad()),
    }
}

/// The run that a line is about, which has no other key than these.
#[tactic(auto, unfolding(crate::specs::Parts::run_of))]
pub(crate) fn run_of(alloc: Global, value: &Value, keys: &[&str]) -> Result<Text, Unread>
    ensures ok { IfOk result (λ run. run_of (map (λ key. key.now) keys.now) (view value.now) ≡ Ok run) }
    ensures err { IfErr result (IsUnread (run_of (map (λ key. key.now) keys.now) (view value.now))) }
{
    if !has_only(value, keys) {
        return Err(bad());
    }
    match value.get("run") {
        Some(run) => run_in(alloc, run),
        None => Err(bad()),
    }
}

/// The names of 1 to 1,000 runs.
#[tactic(auto, using(wm_script::proofs::PartsLemmas::count_items), unfolding(crate::specs::Parts::runs_in))]
pub(crate) fn runs_in(alloc: Global, value: &Value) -> Result<Items<Text>, Unread>
    ensures ok { IfOk result (λ runs. runs_in (view value.now) ≡ Ok runs) }
    ensures err { IfErr result (IsUnread (runs_in (view value.now))) }
{
    let Some(items) = value.as_array() else {
        return Err(bad());
    };
    if !is_count(items.len()) {
        return Err(bad());
    }
    each_run(alloc, items.as_slice())
}

/// Whether a beat may name so many runs.
fn is_count(count: usize) -> bool
    ensures { result ≡ is_count count }
{
    0 < count && count <= MAX_RUNS
}

/// The names that the items of a list are.
fn each_run(alloc: Global, items: &[Value]) -> Result<Items<Text>, Unread>
    ensures ok { IfOk result (λ runs. each_run (item_list (items_view items.now)) ≡ Ok runs) }
    ensures err { IfErr result (IsUnread (each_run (item_list (items_view items.now)))) }
{
    let mut runs = Items::new(alloc);
    for item in items {
        add(&mut runs, run_in(alloc, item)?)?;
    }
    Ok(runs)
}

/// Adds a name at the end.
fn add(runs: &mut Items<Text>, run: Text) -> Result<(), AllocError>
    ensures { OnOk result (runs.new ≡ runs.old ++ run ∷ []) }
{
    runs.push(run)?;
    Ok(())
}

/// What a run ended with, which is empty where there is none.
#[tactic(auto, unfolding(crate::specs::Parts::data_at))]
pub(crate) fn data_at(alloc: Global, value: Option<&Value>) -> Result<Data, Unread>
    ensures ok { IfOk result (λ read. data_at (option_map (λ found. view found.now) value.entry) ≡ Ok read) }
    ensures err { IfErr result (IsUnread (data_at (option_map (λ found. view found.now) value.entry))) }
{
    match value {
        Some(json) => read_data(alloc, json),
        None => Ok(Data::empty()),
    }
}

/// What a run tells, where it tells something.
#[tactic(auto, unfolding(crate::specs::Parts::progress_at))]
pub(crate) fn progress_at(alloc: Global, value: Option<&Value>) -> Result<Option<Data>, Unread>
    ensures ok { IfOk result (λ read. progress_at (option_map (λ found. view found.now) value.entry) ≡ Ok read) }
    ensures err { IfErr result (IsUnread (progress_at (option_map (λ found. view found.now) value.entry))) }
{
    match value {
        Some(json) => Ok(Some(read_data(alloc, json)?)),
        None => Ok(None),
    }
}

/// The Data that a value is.
fn read_data(alloc: Global, value: &Value) -> Result<Data, Unread>
    ensures ok { IfOk result (λ read. or_fault (read_data (view value.now)) ≡ Ok read) }
    ensures err { IfErr result (IsUnread (or_fault (read_data (view value.now)))) }
{
    match Data::from_json(alloc, value) {
        Ok(read) => Ok(read),
        Err(fault) => Err(unread_for(fault)),
    }
}

/// Why a line isn't read whose Data have this fault.
fn unread_for(fault: DataFault) -> Unread
    ensures { result ≡ unread_for fault }
{
    match fault {
        DataFault::EmptyKey => Unread::Fault(LineFault::EmptyKey),
        DataFault::BadData { key } => Unread::Fault(LineFault::BadData { key }),
        DataFault::TooLarge { size } => Unread::Fault(LineFault::TooLarge { size }),
        DataFault::Memory => Unread::Memory,
    }
}
