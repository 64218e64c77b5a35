//! What stands in a line, part by part, and lists of parts. Each part is read once.
ghost use Rattle.std.specs.Prelude.{◌≡◌, ◌≤◌, length, option_map, IfErr, IfOk, Ok, Result};
ghost use Rattle.serde_json.specs.Data as json;
ghost use Rattle.serde_json.specs.View.{items_view, view};
ghost use Rattle.wm_data.specs.DataRead.{item_list};
ghost use Rattle.wm_script.specs.Onto.{IsOneMore, IsStopped, with_fault, with_part};
ghost use Rattle.wm_script.specs.Parts.{each_in, formed, IsFaultOf, is_count, items_in, list_at, some_in};

use serde_json::Value;
use std::alloc::{AllocError, Global};
use wm_chain::ChainFault;
use wm_collections::Items;
use wm_data::DataFault;
use wm_machine::LineFault;
use wm_request::RequestFault;

/// The most items that a list of works or of layers has.
const MAX_ITEMS: usize = 1_000;

/// Why a part of a line isn't read.
#[derive(Debug, Drop)]
pub enum Unread {
    /// It isn't in the form.
    Form,
    /// It is in the form and has this fault.
    Fault(LineFault),
    /// Memory was refused.
    Memory,
}

impl From<AllocError> for Unread {
    ghost use Rattle.wm_script.specs.declared.parts.Unread.TheVariants.{Memory};

    ghost from_gives = { λ _ fault. fault ≡ Memory };

    fn from(_refused: AllocError) -> Unread {
        Unread::Memory
    }
}

impl From<DataFault> for Unread {
    ghost use Rattle.wm_script.specs.Parts.{of_data};

    ghost from_gives = { λ found fault. fault ≡ of_data found };

    fn from(found: DataFault) -> Unread {
        match found {
            DataFault::EmptyKey => Unread::Fault(LineFault::EmptyKey),
            DataFault::BadData { key } => Unread::Fault(LineFault::BadData { key }),
            DataFault::TooLarge { size } => Unread::Fault(LineFault::TooLarge { size }),
            DataFault::Memory => Unread::Memory,
        }
    }
}

impl From<RequestFault> for Unread {
    ghost use Rattle.wm_script.specs.Parts.{of_request};

    ghost from_gives = { λ found fault. fault ≡ of_request found };

    fn from(found: RequestFault) -> Unread {
        match found {
            RequestFault::NoClass => Unread::Fault(LineFault::NoClass),
            RequestFault::TooManyTags => Unread::Fault(LineFault::TooManyTags),
            RequestFault::DelayTooLong => Unread::Fault(LineFault::DelayTooLong),
            RequestFault::Memory => Unread::Memory,
        }
    }
}

impl From<ChainFault> for Unread {
    ghost use Rattle.wm_script.specs.Parts.{of_chain};

    ghost from_gives = { λ found fault. fault ≡ of_chain found };

    fn from(found: ChainFault) -> Unread {
        match found {
            ChainFault::IdTwice { id } => Unread::Fault(LineFault::IdTwice { id }),
            ChainFault::PeriodicInChain { id } => Unread::Fault(LineFault::PeriodicInChain { id }),
            ChainFault::Memory => Unread::Memory,
        }
    }
}

/// What has to be there; `Form` where it isn't.
pub fn formed<T>(part: Option<T>) -> Result<T, Unread>
    ensures { result ≡ formed part }
{
    part.ok_or(Unread::Form)
}

/// What is read of an item of a list.
pub trait Part: Drop {
    ghost use Rattle.wm_script.specs.declared.parts.Unread.{Unread};

    /// What a JSON value is read as.
    ghost reading: { json.Data → Result Self Unread };

    /// Reads it once: its form and all that it holds.
    fn read(alloc: Global, value: &Value) -> Result<Self, Unread>
        ensures ok { IfOk result (λ part. reading (view value.now) ≡ Ok part) }
        ensures err { IfErr result (IsFaultOf (reading (view value.now))) };
}

/// The parts of a list; none where there is no list.
pub fn list_at<T: Part>(alloc: Global, value: Option<&Value>) -> Result<Items<T>, Unread>
    ensures ok { IfOk result (λ parts. list_at T.reading (option_map (λ found. view found.now) value.entry) ≡ Ok parts) }
    ensures err { IfErr result (IsFaultOf (list_at T.reading (option_map (λ found. view found.now) value.entry))) }
{
    match value {
        Some(value) => each_in(alloc, items_in(value)?),
        None => Ok(Items::new(alloc)),
    }
}

/// The parts of a list of 1 to 1,000 items.
#[tactic(auto, using(crate::proofs::PartsLemmas::count_items))]
pub fn some_in<T: Part>(alloc: Global, value: &Value) -> Result<Items<T>, Unread>
    ensures ok { IfOk result (λ parts. some_in T.reading (view value.now) ≡ Ok parts) }
    ensures err { IfErr result (IsFaultOf (some_in T.reading (view value.now))) }
    ensures some { IfOk result (λ parts. 1 ≤ length parts) }
{
    let items = items_in(value)?;
    if is_count(items.len()) {
        each_in(alloc, items)
    } else {
        Err(Unread::Form)
    }
}

/// Whether it is a number of items that such a list may have.
fn is_count(count: usize) -> bool
    ensures { result ≡ is_count count }
{
    0 < count && count <= MAX_ITEMS
}

/// The items of a list.
fn items_in(value: &Value) -> Result<&[Value], Unread>
    ensures ok { IfOk result (λ items. items_in (view value.now) ≡ Ok (item_list (items_view items.now))) }
    ensures err { IfErr result (IsFaultOf (items_in (view value.now))) }
{
    match value.as_array() {
        Some(items) => Ok(items.as_slice()),
        None => Err(Unread::Form),
    }
}

/// The parts that the items of a list are. `Form` where one of them isn't in the form, and else the
/// fault of the first that has one.
fn each_in<T: Part>(alloc: Global, items: &[Value]) -> Result<Items<T>, Unread>
    ensures ok { IfOk result (λ parts. each_in T.reading (item_list (items_view items.now)) ≡ Ok parts) }
    ensures err { IfErr result (IsFaultOf (each_in T.reading (item_list (items_view items.now)))) }
{
    let mut all = Ok(Items::new(alloc));
    for item in items {
        all = read_onto(alloc, all, item)?;
    }
    match all {
        Ok(parts) => Ok(parts),
        Err(fault) => Err(Unread::Fault(fault)),
    }
}

/// These parts, or the first fault so far, with one item more.
fn read_onto<T: Part>(
    alloc: Global,
    all: Result<Items<T>, LineFault>,
    item: &Value,
) -> Result<Result<Items<T>, LineFault>, Unread>
    ensures ok { IfOk result (IsOneMore all (T.reading (view item.now))) }
    ensures err { IfErr result (IsStopped all (T.reading (view item.now))) }
{
    match T::read(alloc, item) {
        Ok(part) => Ok(with_part(all, part)?),
        Err(Unread::Fault(fault)) => Ok(with_fault(all, fault)),
        Err(Unread::Form) => Err(Unread::Form),
        Err(Unread::Memory) => Err(Unread::Memory),
    }
}

/// One part more, where there is no fault yet.
fn with_part<T: Drop>(
    all: Result<Items<T>, LineFault>,
    part: T,
) -> Result<Result<Items<T>, LineFault>, AllocError>
    ensures { IfOk result (λ more. more ≡ with_part all part) }
{
    match all {
        Ok(mut parts) => {
            parts.push(part)?;
            Ok(Ok(parts))
        }
        Err(first) => Ok(Err(first)),
    }
}

/// A fault, where there is none yet.
fn with_fault<T: Drop>(
    all: Result<Items<T>, LineFault>,
    fault: LineFault,
) -> Result<Items<T>, LineFault>
    ensures { result ≡ with_fault all fault }
{
    match all {
        Ok(_) => Err(fault),
        Err(first) => Err(first),
    }
}
