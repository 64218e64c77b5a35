//! The stock workers, as the program `work` has them.
ghost use Rattle.std.specs.Prelude.{◌≤◌, vec_len, IfOk};
ghost use Rattle.wm_bench.specs.Places.{most_hands};

use std::alloc::{AllocError, Global};
use wm_bench::Hand;
use wm_collections::Text;
use wm_stock::{AnyStock, STOCK_WORKERS};

/// A few workers of each stock kind, whose classes are named as their kinds.
pub fn stock_hands(alloc: Global) -> Result<Vec<Hand<AnyStock>>, AllocError>
    ensures { IfOk result (λ hands. vec_len hands ≤ most_hands) }
{
    let mut hands = Vec::new(alloc);
    for number in 0..STOCK_WORKERS {
        let worker = AnyStock::numbered(number);
        let class = Text::from_str(alloc, worker.name())?;
        hands.push(Hand { class, worker })?;
    }
    Ok(hands)
}
