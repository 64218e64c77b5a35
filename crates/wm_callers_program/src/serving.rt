//! The calls: each caller calls its lines in order, in a thread of its own.
ghost use Rattle.std.specs.Prelude.{◌≡◌, ◌<◌, ◌++◌, ◌∷◌, [], All, Err, None, Some, OnErr, OnOk};
ghost use Rattle.std.specs.Thread.{IsSend, IsSync};
ghost use mathlib.Core.List.{IsPrefix};
ghost use Rattle.wm_callers_program.specs.Made.{lines_by};
ghost use Rattle.wm_callers_program.specs.Serving.{HasOwnPlaces, HasServed, HaveServed};

use crate::caller::Caller;
use crate::line::Line;
use std::sync::Wait;
use std::thread;
use std::thread::Threads;
use wm_callers::{Desk, DeskMark, Pass};
use wm_keeper::Keeper;
use wm_pool::{Gate, Point};
use wm_table::{Mark, Trouble};
use wm_worker::Worker;

/// Calls a line for the caller of a pass, once the gate was passed.
fn call_line<K: Keeper, B: Worker, M: Mark, J: DeskMark, R: Wait, G: Gate>(
    rt: &R,
    gate: &G,
    desk: &Desk<K, B, M, J>,
    pass: &mut Pass<J>,
    line: Line,
) -> Result<(), Trouble>
    requires own { HasOwnPlaces pass.old }
    ensures number { pass.new.number ≡ pass.old.number }
    ensures own { HasOwnPlaces pass.new }
    ensures ok { OnOk result (lines_by pass.new ≡ lines_by pass.old ++ line ∷ []) }
    ensures err { OnErr result (lines_by pass.new ≡ lines_by pass.old) }
    ensures fault { result ≡ Err Trouble.KeeperFault → 0 < pass.new.units }
{
    let Line { number, command } = line;
    gate.at(Point::Front { line: number });
    match desk.call(rt, pass, number, command) {
        Ok(receipt) => {
            drop(receipt);
            Ok(())
        }
        Err(Trouble::KeeperFault) => Err(Trouble::KeeperFault),
        Err(Trouble::Memory) => Err(Trouble::Memory),
    }
}

/// Calls the lines of a caller in order, until one is refused.
fn serve_caller<K: Keeper, B: Worker, M: Mark, J: DeskMark, R: Wait, G: Gate>(
    rt: &R,
    gate: &G,
    desk: &Desk<K, B, M, J>,
    caller: &mut Caller<J>,
)
    requires going { caller.old.refused ≡ None }
    requires own { HasOwnPlaces caller.old.pass }
    ensures number { caller.new.pass.number ≡ caller.old.pass.number }
    ensures own { HasOwnPlaces caller.new.pass }
    ensures front { IsPrefix (lines_by caller.new.pass) (lines_by caller.old.pass ++ caller.old.lot) }
    ensures whole { caller.new.refused ≡ None
        → lines_by caller.new.pass ≡ lines_by caller.old.pass ++ caller.old.lot }
    ensures fault { caller.new.refused ≡ Some Trouble.KeeperFault → 0 < caller.new.pass.units }
{
    while let Some(line) = caller.lot.pop() {
        if let Err(trouble) = call_line(rt, gate, desk, &mut caller.pass, line) {
            caller.refused = Some(trouble);
            return;
        }
    }
}

/// The same for all callers, each in a thread of its own. A caller for which no thread can be made is
/// served after another, in the thread of that one.
pub(crate) fn serve_all<
    K: Keeper + Send,
    B: Worker + Send,
    M: Mark + Send + Sync,
    J: DeskMark + Send + Sync,
    R: Threads + Wait + Sync,
    G: Gate + Sync,
>(rt: &R, gate: &G, desk: &Desk<K, B, M, J>, callers: &mut [Caller<J>])
    requires ready { All (λ caller. (caller.refused ≡ None) × HasOwnPlaces caller.pass) callers.old }
    ensures { HaveServed callers.old callers.new }
{
    let threads = callers.len().max(1);
    thread::for_each_mut(
        rt,
        callers,
        threads,
        &|_, caller: &mut Caller<J>|
            requires { (caller.now.refused ≡ None) × HasOwnPlaces caller.now.pass }
            ensures { HasServed caller.entry.now caller.exit.now }
        { serve_caller(rt, gate, desk, caller) },
    );
}
