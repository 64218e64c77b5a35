//! Hands, and the words of a command line, for the tests.
ghost use Rattle.std.specs.Prelude.{◌≡◌, ◌≤◌, ◌+◌, vec_len, IfOk, OnOk};
ghost use Rattle.wm_bench.specs.Places.{most_hands};

use std::alloc::{AllocError, Global};
use wm_bench::Hand;
use wm_collections::Text;

/// Adds a hand of this class.
pub fn add_hand<B: Drop>(
    alloc: Global,
    hands: &mut Vec<Hand<B>>,
    class: &str,
    worker: B,
) -> Result<(), AllocError>
    ensures one_more { OnOk result (vec_len hands.new ≡ vec_len hands.old + 1) }
{
    let class = Text::from_str(alloc, class)?;
    hands.push(Hand { class, worker })?;
    Ok(())
}

/// One hand.
pub fn one_hand<B: Drop>(alloc: Global, class: &str, worker: B) -> Result<Vec<Hand<B>>, AllocError>
    ensures { IfOk result (λ hands. vec_len hands ≤ most_hands) }
{
    let mut hands = Vec::new(alloc);
    add_hand(alloc, &mut hands, class, worker)?;
    Ok(hands)
}

/// These words, as a command line has them.
pub fn words(alloc: Global, words: &[&str]) -> Result<Vec<String>, AllocError> {
    let mut all = Vec::new(alloc);
    for word in words {
        all.push(String::from_str(alloc, word)?)?;
    }
    Ok(all)
}
