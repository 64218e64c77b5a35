//! The opening of a driver over a keeper and workers.
ghost use Rattle.std.specs.Prelude.{◌≤◌, vec_len};
ghost use Rattle.wm_beginning.specs.Begun.{IsGiven};
ghost use Rattle.wm_beginning.specs.Loading.{MayBegin};
ghost use Rattle.wm_bench.specs.Places.{most_hands};

use crate::lines::Lines;
use crate::talk::{status_of, talk};
use std::alloc::Global;
use std::marker::Brand;
use std::rt::Clock;
use wm_beginning::{Begun, Loaded, begin, load};
use wm_bench::Hand;
use wm_ended::Status;
use wm_io::{Sink, Source};
use wm_keeper::Keeper;
use wm_live::Live;
use wm_table::Mark;
use wm_worker::Worker;

/// Loads the store of this name, and talks over it, with these workers.
pub fn open<R: Clock, S: Source, W: Sink, K: Keeper + Drop, B: Worker + Drop>(
    rt: &R,
    alloc: Global,
    store: &str,
    keeper: K,
    hands: Vec<Hand<B>>,
    lines: &mut Lines<S>,
    sink: &mut W,
) -> Result<(), Status>
    requires { vec_len hands ≤ most_hands }
{
    match load(alloc, store, hands, (), keeper) {
        Ok(loaded) => open_loaded::<R, S, W, K, B, Brand>(rt, alloc, loaded, lines, sink),
        Err(back) => Err(back.status),
    }
}

/// Opens the rows that were loaded, and talks over them. The mark is what is given here; the talk has its
/// sink beside it.
fn open_loaded<R: Clock, S: Source, W: Sink, K: Keeper + Drop, B: Worker + Drop, M: Mark>(
    rt: &R,
    alloc: Global,
    loaded: Loaded<K, (), B>,
    lines: &mut Lines<S>,
    sink: &mut W,
) -> Result<(), Status>
    requires may { MayBegin K.store B.kind_of loaded }
    requires given { IsGiven M.inputs (K.store loaded.keeper) loaded.rows.items loaded.instances
        loaded.roll.table_id }
{
    let Begun {
        table,
        bench,
        sink: _,
    } = match begin::<K, (), B, M>(alloc, loaded) {
        Ok(begun) => begun,
        Err(back) => return Err(back.status),
    };
    match Live::open(alloc, table, bench) {
        Ok(live) => talk(rt, alloc, live, lines, sink),
        Err(end) => Err(status_of(end.trouble)),
    }
}
