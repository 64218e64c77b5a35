//! The worker that is busy.
ghost use Rattle.std.specs.Prelude.{◌≤◌, vec_len, IfOk};
ghost use Rattle.wm_bench.specs.Places.{most_hands};

use std::alloc::{AllocError, Global};
use wm_bench::Hand;
use wm_collections::Text;
use wm_data::{Data, Value};
use wm_worker::{Answer, DoWork, Signal, Simple, Task};

/// How many steps a turn takes: a millisecond's or so.
const STEPS: u32 = 5_000_000;

/// How many workers of the class there are.
pub const BUSY_WORKERS: u32 = 4;

/// Takes as many turns as an Int in its input says under `turns`, or one where none is there, each as
/// long as any other, and succeeds with no data.
#[derive(Drop)]
pub struct Busy;

impl DoWork for Busy {
    fn do_work(
        &mut self,
        _alloc: Global,
        task: &Task,
        k: u32,
        _signal: &Signal,
    ) -> Result<Answer, AllocError> {
        Ok(if stirred(k) == 0 {
            Answer::Failure(Data::empty())
        } else if i64::from(k) + 1 < turns_of(task) {
            Answer::More(None)
        } else {
            Answer::Success(Data::empty())
        })
    }
}

/// How many turns a task asks for.
fn turns_of(task: &Task) -> i64 {
    match task.input.get("turns") {
        Some(Value::Int(turns)) => i64::from(*turns),
        _ => 1,
    }
}

/// A number that takes many steps from this one: each multiplies and adds, so none can be left out.
fn stirred(number: u32) -> u64 {
    let mut stirred = u64::from(number);
    for _step in 0..STEPS {
        stirred = stirred
            .wrapping_mul(6_364_136_223_846_793_005)
            .wrapping_add(1_442_695_040_888_963_407);
    }
    stirred
}

fn busy_hand(alloc: Global) -> Result<Hand<Simple<Busy>>, AllocError> {
    Ok(Hand {
        class: Text::from_str(alloc, "Busy")?,
        worker: Simple::new(Busy),
    })
}

/// Four workers of class `Busy`.
pub fn busy_hands(alloc: Global) -> Result<Vec<Hand<Simple<Busy>>>, AllocError>
    ensures { IfOk result (λ hands. vec_len hands ≤ most_hands) }
{
    let mut hands = Vec::new(alloc);
    hands.push(busy_hand(alloc)?)?;
    hands.push(busy_hand(alloc)?)?;
    hands.push(busy_hand(alloc)?)?;
    hands.push(busy_hand(alloc)?)?;
    Ok(hands)
}
