//! A test driver that is asked one ask after another.
ghost use Rattle.std.specs.Prelude.{◌≡◌, ◌+◌, ◌<◌, ◌^◌, length, IfOk, IfErr};
ghost use Rattle.std.specs.List.{AllByRecursion};
ghost use Rattle.wm_live.specs.Live.{IsEndFor, LiveCause};
ghost use Rattle.wm_live_program.specs.Answered.{AreAnswered, AreCutShort};
ghost use Rattle.wm_live_program.specs.Asks.{HasAskable};

use wm_asks::{Ask, Clock};
use wm_keeper::Keeper;
use wm_live::{Live, LiveEnd};
use wm_table::Mark;
use wm_worker::Worker;

/// Asks a test driver these, in order, for the lines from the first on, until it ends by a trouble.
pub fn ask_all<K: Keeper, B: Worker, M: Mark, C: Clock>(
    mut live: Live<K, B, M>,
    asks: Vec<Ask>,
    clock: &mut C,
) -> Result<Live<K, B, M>, LiveEnd<K, B>>
    requires askable { AllByRecursion HasAskable asks.items }
    requires few { length asks.items < 2 ^ 32 }
    requires clock { length (C.answers clock.old) + length asks.items < 2 ^ 53 }
    ensures pace { C.pace clock.new ≡ C.pace clock.old }
    ensures ok { IfOk result (AreAnswered 1 asks.items (C.answers clock.old) (C.answers clock.new) live) }
    ensures err { IfErr result (AreCutShort K.store 1 asks.items (C.answers clock.old) (C.answers clock.new) live) }
    ensures steady { IfOk result (λ last. (K.store last.table.keeper).faults ≡ (K.store live.table.keeper).faults) }
    ensures cause { IfErr result (LiveCause K.store live.table.keeper) }
    ensures given { IfErr result (IsEndFor M.inputs K.store) }
{
    let mut line = 0;
    'asks: for ask in asks {
        line += 1;
        let (next, answer) = live.ask(line, ask, clock)?;
        drop(answer);
        live = next;
    }
    Ok(live)
}
