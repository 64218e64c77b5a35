//! The words of a run.
ghost use Rattle.std.specs.Prelude.{◌≡◌, ◌≤◌, map, option_map, string_bytes, IfSome};
ghost use Rattle.wm_words.specs.Settings.{settings_of};
ghost use Rattle.wm_words.specs.Run.{asked, options_of, origin_in, workers_in};

use crate::settings::{are_options, is_name, number_within, value_of};

/// The most workers that the words may ask for.
const MAX_WORKERS: u64 = 64;

/// Where the lines of a run come from.
#[derive(Clone, Copy)]
pub enum Origin {
    /// They are those of the script that the source has.
    Script,
    /// They are those that this seed gives.
    Seed(u64),
}

/// What the words of the command line ask for.
#[derive(Clone, Copy)]
pub struct Options<'w> {
    /// The name of the store.
    pub store: &'w str,
    /// The number of workers, 0 where the words don't say it.
    pub workers: u32,
    /// Where the lines come from, the script where the words give no seed.
    pub origin: Origin,
}

/// The number of workers that the words ask for.
fn workers_in(words: &[String]) -> Option<u32>
    ensures asked { IfSome (settings_of (map string_bytes words.now)) (λ settings. result ≡ workers_in settings) }
    ensures few { IfSome result (λ workers. workers ≤ 64) }
{
    match value_of("--workers", words) {
        Some(value) => Some(number_within(MAX_WORKERS, value)? as u32),
        None => Some(0),
    }
}

/// Where the lines come from that the words ask for.
fn origin_in(words: &[String]) -> Option<Origin>
    ensures asked { IfSome (settings_of (map string_bytes words.now)) (λ settings. result ≡ origin_in settings) }
{
    match value_of("--generate", words) {
        Some(value) => Some(Origin::Seed(number_within(u64::MAX, value)?)),
        None => Some(Origin::Script),
    }
}

/// What the words ask for: `--store NAME` and, where they are given, `--workers N` and
/// `--generate SEED`, in any order, each once at most, as two words or as one with `=`.
pub fn options_of(words: &[String]) -> Option<Options<'_>>
    ensures asked { option_map asked result ≡ options_of (map string_bytes words.now) }
    ensures few { IfSome result (λ options. options.workers ≤ 64) }
{
    if !are_options(&["--store", "--workers", "--generate"], words) {
        return None;
    }
    let store = value_of("--store", words)?;
    if !is_name(store) {
        return None;
    }
    let workers = workers_in(words)?;
    let origin = origin_in(words)?;
    Some(Options {
        store,
        workers,
        origin,
    })
}
