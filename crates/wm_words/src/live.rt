//! The words of a test driver.
ghost use Rattle.std.specs.Prelude.{◌≡◌, map, option_map, string_bytes, IfSome};
ghost use Rattle.wm_words.specs.Settings.{settings_of};
ghost use Rattle.wm_words.specs.Live.{live_asked, live_options_of, step_in};

use crate::settings::{are_options, is_name, number_within, value_of};

/// What the words after `live` ask for.
#[derive(Clone, Copy)]
pub struct LiveOptions<'w> {
    /// The name of the store.
    pub store: &'w str,
    /// The milliseconds between two answers of the clock, 0 where the words don't say it.
    pub step: u64,
}

/// The step of the clock that the words ask for.
fn step_in(words: &[String]) -> Option<u64>
    ensures { IfSome (settings_of (map string_bytes words.now)) (λ settings. result ≡ step_in settings) }
{
    match value_of("--step", words) {
        Some(value) => number_within(u64::MAX, value),
        None => Some(0),
    }
}

/// What the words after `live` ask for: `--store NAME` and, where it is given, `--step N`, in any order,
/// each once at most, as two words or as one with `=`.
pub fn live_options_of(words: &[String]) -> Option<LiveOptions<'_>>
    ensures { option_map live_asked result ≡ live_options_of (map string_bytes words.now) }
{
    if !are_options(&["--store", "--step"], words) {
        return None;
    }
    let store = value_of("--store", words)?;
    if !is_name(store) {
        return None;
    }
    let step = step_in(words)?;
    Some(LiveOptions { store, step })
}
