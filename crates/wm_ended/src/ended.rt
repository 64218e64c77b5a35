//! What a run hands back.
ghost use Rattle.std.specs.Prelude.{◌≡◌, [], false};
ghost use Rattle.wm_ended.specs.Ended.{IsUnbegun};
ghost use Rattle.wm_machine.specs.Opened.{opening_state};

use crate::not_begun::NotBegun;
use crate::status::Status;
use std::alloc::Global;
use wm_bench::Hand;
use wm_collections::Items;
use wm_machine::{Event, State};
use wm_opening::opening_state;
use wm_worker::Worker;

/// What a run hands back.
#[derive(Drop)]
pub struct Ended<K, W, B = Box<dyn Worker + Send>> {
    /// How it ended.
    pub status: Status,
    /// Whether the store was opened and the table begun.
    pub began: bool,
    /// Whether the rows that were loaded change by their opening, and the table wasn't begun since the
    /// commit of that was refused: a crash may then leave what it would have left.
    pub at_opening: bool,
    /// The state that the store opened to; that of an empty store without workers where the table
    /// wasn't begun.
    pub first: State,
    /// The events since, in order.
    pub log: Items<Event>,
    /// The state after them.
    pub last: State,
    pub keeper: K,
    pub sink: W,
    /// The workers, in the order in which they were given.
    pub hands: Vec<Hand<B>>,
}

impl<K, W, B> Ended<K, W, B> {
    /// A run that ended before its store was opened.
    pub fn before_begin(
        alloc: Global,
        status: Status,
        keeper: K,
        sink: W,
        hands: Vec<Hand<B>>,
    ) -> Ended<K, W, B>
        ensures { IsUnbegun status false keeper sink hands result }
    {
        Ended::unbegun(alloc, NotBegun::before_opening(status, keeper, sink, hands))
    }

    /// A run whose table wasn't begun.
    pub fn unbegun(alloc: Global, back: NotBegun<K, W, B>) -> Ended<K, W, B>
        ensures { IsUnbegun back.status back.at_opening back.keeper back.sink back.hands result }
    {
        let NotBegun {
            status,
            at_opening,
            keeper,
            sink,
            hands,
        } = back;
        Ended {
            status,
            began: false,
            at_opening,
            first: empty_state(alloc),
            log: Items::new(alloc),
            last: empty_state(alloc),
            keeper,
            sink,
            hands,
        }
    }
}

/// The state that an empty store opens to, without workers.
fn empty_state(alloc: Global) -> State
    ensures { result ≡ opening_state [] [] }
{
    opening_state(alloc, Items::new(alloc), Items::new(alloc))
}
