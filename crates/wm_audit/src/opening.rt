//! The state that an audit begins with.
ghost use Rattle.std.specs.Prelude.{◌≡◌, map};
ghost use Rattle.wm_audit.specs.Happened.{AreOfRows};
ghost use Rattle.wm_machine.specs.Opened.{opening_state, reopened};

use std::alloc::Global;
use wm_collections::Items;
use wm_data::Data;
use wm_machine::{Instance, Phase, Record, State};
use wm_opening::opening_state;

/// The state that the records of sound rows open to, with these instances: work that was running waits
/// again, and nothing else of it changes.
pub(crate) fn opened(alloc: Global, works: Items<Record>, instances: Items<Instance>) -> State
    requires { AreOfRows works }
    ensures { result ≡ opening_state (map reopened works) instances }
{
    opening_state(alloc, reopened(works), instances)
}

/// The records, where those whose work was running wait again.
fn reopened(works: Items<Record>) -> Items<Record>
    ensures { result ≡ map reopened works }
{
    let mut elements = works.into_vec();
    reopen_each(elements.as_mut_slice());
    Items::from_vec(elements)
}

/// Has each record whose work was running wait again.
fn reopen_each(works: &mut [Record])
    ensures { works.new ≡ map reopened works.old }
{
    for work in works.iter_mut() {
        wait_again(work);
    }
}

/// Has work that was running wait again, without progress.
fn wait_again(work: &mut Record)
    ensures { work.new ≡ reopened work.old }
{
    if matches!(work.phase, Phase::Running) {
        work.phase = Phase::Waiting;
    }
    work.progress = Data::empty();
}
