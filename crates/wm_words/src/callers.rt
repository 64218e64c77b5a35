//! The words of callers on threads of their own.
ghost use Rattle.std.specs.Prelude.{◌≡◌, ◌≤◌, ◌<◌, map, option_map, string_bytes, IfSome};
ghost use Rattle.wm_words.specs.Settings.{settings_of};
ghost use Rattle.wm_words.specs.Callers.{callers_asked, callers_in, callers_options_of};

use crate::settings::{are_options, is_name, number_within, value_of};

/// The most callers that the words may ask for.
const MAX_CALLERS: u64 = 64;

/// What the words after `callers` ask for.
#[derive(Clone, Copy)]
pub struct CallersOptions<'w> {
    /// The name of the store.
    pub store: &'w str,
    /// The number of callers.
    pub callers: u32,
}

/// The number of callers that the words ask for.
fn callers_in(words: &[String]) -> Option<u32>
    ensures asked { IfSome (settings_of (map string_bytes words.now)) (λ settings. result ≡ callers_in settings) }
    ensures within { IfSome result (λ callers. (0 < callers) × (callers ≤ 64)) }
{
    let value = value_of("--workers", words)?;
    let callers = number_within(MAX_CALLERS, value)?;
    (callers > 0).then_some(callers as u32)
}

/// What the words after `callers` ask for: `--store NAME` and `--workers N`, in any order, each once, as
/// two words or as one with `=`.
pub fn callers_options_of(words: &[String]) -> Option<CallersOptions<'_>>
    ensures asked { option_map callers_asked result ≡ callers_options_of (map string_bytes words.now) }
    ensures within { IfSome result (λ options. (0 < options.callers) × (options.callers ≤ 64)) }
{
    if !are_options(&["--store", "--workers"], words) {
        return None;
    }
    let store = value_of("--store", words)?;
    if !is_name(store) {
        return None;
    }
    let callers = callers_in(words)?;
    Some(CallersOptions { store, callers })
}
