//! What the rows of a store open to.
ghost use Rattle.std.specs.Prelude.{◌≡◌, [], IfErr, IfOk, OnOk};
ghost use Rattle.wm_keeper.specs.Keeper.{changed, AreOfDifferentNumbers};
ghost use Rattle.wm_machine.specs.Opened.{next_number, opening_state, AreFresh, Opened};
ghost use Rattle.wm_machine.specs.Rows.{rows_of};
ghost use Rattle.wm_machine.specs.Valid.{AreWorks, Valid};
ghost use Rattle.wm_opening.specs.Reopenings.{AreReopened, AreReopenings};
ghost use Rattle.wm_rows.specs.Sound.{checked, AreSound, IsFaultOf};

use crate::nodes::graph_of;
use crate::running::reopened;
use std::alloc::{AllocError, Global};
use wm_collections::{Items, Replica, both};
use wm_conditions::Conditions;
use wm_keeper::{Change, Row};
use wm_machine::{Instance, Record, State};
use wm_rows::{RowFault, check_all};
use wm_steps::View;

/// What a store opens to.
#[derive(Drop)]
pub struct Opening {
    /// The state that its rows open to, with which its log begins.
    pub first: State,
    /// The view of the same state.
    pub view: View,
    /// What is to be committed of its rows, in one commit: each row that isn't that of its record in
    /// this state.
    pub changes: Vec<Change>,
}

/// Opens a store that holds these rows, with these instances.
///
/// The records are those of the rows, in either form; work that was running waits again, and nothing
/// else of it changes. Rows that aren't those of a store are refused as `check_all` refuses them: the first row
/// with a fault decides, by `BadRow` or `Unsound`. `Memory` comes where memory was refused.
pub fn open(alloc: Global, rows: &[Row], instances: Items<Instance>) -> Result<Opening, RowFault>
    requires { AreFresh instances }
    ensures opened { IfOk result (λ opening. Opened rows.now instances opening.first) }
    ensures view { IfOk result (λ opening. opening.view ≡ opening.first) }
    ensures those_differing { IfOk result
        (λ opening. IfOk (checked rows.now) (λ stored. AreReopenings rows.now stored opening.changes.items)) }
    ensures changes { IfOk result (λ opening. changed opening.changes.items rows.now ≡ rows_of opening.first) }
    ensures apart { IfOk result (λ opening. AreOfDifferentNumbers opening.changes.items) }
    ensures only_changed { IfOk result (λ opening. rows_of opening.first ≡ rows.now → opening.changes.items ≡ []) }
    ensures sound { OnOk result (AreSound rows.now) }
    ensures err { IfErr result (IsFaultOf (checked rows.now)) }
{
    let (works, changes) = works_of(alloc, rows)?;
    let (first, view) = states_of(alloc, works, instances)?;
    Ok(Opening {
        first,
        view,
        changes,
    })
}

/// The records that these rows open to, and what is to be changed of the rows.
fn works_of(alloc: Global, rows: &[Row]) -> Result<(Items<Record>, Vec<Change>), RowFault>
    ensures ok { IfOk result (λ both. AreReopened rows.now both.0 both.1.items) }
    ensures sound { OnOk result (AreSound rows.now) }
    ensures err { IfErr result (IsFaultOf (checked rows.now)) }
{
    let stored = check_all(alloc, rows)?;
    Ok(reopened(alloc, rows, stored)?)
}

/// The opening state of these records, and its view.
fn states_of(
    alloc: Global,
    works: Items<Record>,
    instances: Items<Instance>,
) -> Result<(State, View), AllocError>
    requires { Valid (opening_state works instances) }
    ensures { IfOk result (λ both. (both.0 ≡ opening_state works instances) × (both.1 ≡ opening_state works instances)) }
{
    let graph = graph_of(alloc, works.as_slice())?;
    let first = opening_state(alloc, works.replica(alloc)?, instances.replica(alloc)?);
    let view = View::new(alloc, opening_state(alloc, works, instances), graph);
    both(first, view)
}

/// The opening state of these records, which stand in order. It takes no memory.
pub fn opening_state(alloc: Global, works: Items<Record>, instances: Items<Instance>) -> State
    requires { AreWorks (next_number works) works }
    ensures { result ≡ opening_state works instances }
{
    let next = next_number(works.as_slice());
    State {
        works,
        conditions: Conditions::OPENING,
        now: 0,
        runs: Items::new(alloc),
        instances,
        next,
        next_run: 1,
        observers: Items::new(alloc),
        hushed: false,
    }
}

/// The number above that of the last of these records, which stand in order, or 1.
fn next_number(works: &[Record]) -> u64
    requires { AreWorks (next_number works.now) works.now }
    ensures { result ≡ next_number works.now }
{
    match works.last() {
        Some(last) => last.seq + 1,
        None => 1,
    }
}
