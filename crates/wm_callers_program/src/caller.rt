//! The callers: each has a pass of the desk and a lot of lines.
ghost use Rattle.std.specs.Prelude.{◌≡◌, ◌≤◌, ℕ, List, [], length, map, reverse, vec_capacity};
ghost use Rattle.std.specs.List.{AllByRecursion};
ghost use Rattle.wm_callers.specs.Closing.{fresh_passes};
ghost use Rattle.wm_callers_program.specs.Calls.{worse, HaveCalled};
ghost use Rattle.wm_callers_program.specs.Lines.{dealt, numbers_from, AskedLine};
ghost use Rattle.wm_callers_program.specs.Serving.{IsFresh, IsReady, IsServed};

use crate::line::Lot;
use wm_callers::{DeskMark, Pass};
use wm_table::Trouble;

/// What the thread of a caller holds: its pass, the lines that it has still to call, and why a call of
/// it was refused, after which it made no more.
pub(crate) struct Caller<J: DeskMark> {
    pub(crate) pass: Pass<J>,
    pub(crate) lot: Lot,
    pub(crate) refused: Option<Trouble>,
}

/// Gives each pass of a desk that was just opened its lot, in a list that has room for all. The
/// callers stand in it from the last to the first.
pub(crate) fn pair<J: DeskMark>(
    mut passes: Vec<Pass<J>>,
    mut lots: Vec<Lot>,
    room: Vec<Caller<J>>,
    callers: u32,
) -> Vec<Caller<J>>
    requires fresh { passes.items ≡ fresh_passes callers }
    requires lots { length lots.items ≡ callers }
    requires none { room.items ≡ [] }
    requires room { callers ≤ vec_capacity room }
    ensures numbers { map (λ caller. caller.pass.number) result.items ≡ reverse (numbers_from 0 callers) }
    ensures fresh { AllByRecursion IsFresh result.items }
    ensures ready { (lines : List AskedLine) → lots.items ≡ dealt callers lines
        → AllByRecursion (IsReady callers lines) result.items }
{
    let mut paired = room;
    while let Some(pass) = passes.pop() {
        let Some(lot) = lots.pop() else {
            unreachable!();
        };
        paired.push_reserved(Caller {
            pass,
            lot,
            refused: None,
        });
    }
    passes.destroy_empty();
    paired
}

/// The refusal of two that counts: that of the keeper, where one is.
fn worse(one: Option<Trouble>, other: Option<Trouble>) -> Option<Trouble>
    ensures { result ≡ worse one other }
{
    match one {
        Some(Trouble::KeeperFault) => Some(Trouble::KeeperFault),
        Some(Trouble::Memory) => match other {
            Some(trouble) => Some(trouble),
            None => Some(Trouble::Memory),
        },
        None => other,
    }
}

/// Takes the passes of the callers out, from the last caller to the first, in a list that has room
/// for all, and says why a call was refused, where one was.
pub(crate) fn part<J: DeskMark>(
    mut callers: Vec<Caller<J>>,
    room: Vec<Pass<J>>,
) -> (Vec<Pass<J>>, Option<Trouble>)
    requires none { room.items ≡ [] }
    requires room { length callers.items ≤ vec_capacity room }
    ensures numbers { map (λ pass. pass.number) result.0.items
        ≡ reverse (map (λ caller. caller.pass.number) callers.items) }
    ensures called { (count : ℕ) (lines : List AskedLine) → AllByRecursion (IsServed count lines) callers.items
        → HaveCalled count lines result.1 result.0.items }
{
    let mut passes = room;
    let mut refused = None;
    while let Some(caller) = callers.pop() {
        let Caller {
            pass,
            lot,
            refused: why,
        } = caller;
        drop(lot);
        refused = worse(refused, why);
        passes.push_reserved(pass);
    }
    callers.destroy_empty();
    (passes, refused)
}
