//! The words of the command line as settings, and the forms of their values.
ghost use Rattle.std.specs.Prelude.{◌≡◌, ◌⊎◌, ◌≤◌, false, length, map, None, option_map, string_bytes, IfSome, MatchOption};
ghost use Rattle.std.specs.Char.{is_ascii_digit};
ghost use Rattle.std.specs.List.{list_all, list_any};
ghost use Rattle.std.specs.Option.{option_map_or};
ghost use Rattle.std.specs.Str.{bytes_eq};
ghost use Rattle.wm_words.specs.Settings.{are_options, is_name_byte, is_name, is_numeral, number_within, set, setting_in, settings_of, value_of, IsFirst};

/// The most bytes that the name of a store has.
const MAX_NAME_BYTES: usize = 200;

/// The most digits that a number has.
const MAX_DIGITS: usize = 20;

/// A byte that the name of a store may have.
fn is_name_byte(byte: u8) -> bool
    ensures { result ≡ is_name_byte byte }
{
    byte.is_ascii_alphanumeric() || byte == b'.' || byte == b'_' || byte == b'/' || byte == b'-'
}

fn are_name_bytes(bytes: &[u8]) -> bool
    ensures { result ≡ list_all is_name_byte bytes.now }
{
    bytes.iter().all(|byte| is_name_byte(*byte))
}

/// Whether a text may name a store: 1 to 200 bytes of ASCII letters, digits, `.`, `_`, `/` and `-`, of
/// which the first isn't `-`.
pub fn is_name(name: &str) -> bool
    ensures { result ≡ is_name name.now }
{
    let bytes = name.as_bytes();
    if bytes.is_empty() || bytes.len() > MAX_NAME_BYTES {
        return false;
    }
    bytes[0] != b'-' && are_name_bytes(bytes)
}

fn are_digits(bytes: &[u8]) -> bool
    ensures { result ≡ list_all is_ascii_digit bytes.now }
{
    bytes.iter().all(|byte| byte.is_ascii_digit())
}

fn is_numeral(text: &str) -> bool
    ensures { result ≡ is_numeral text.now }
{
    let bytes = text.as_bytes();
    !bytes.is_empty() && bytes.len() <= MAX_DIGITS && are_digits(bytes)
}

/// The number that 1 to 20 decimal digits write, where it is at most `most`.
pub fn number_within(most: u64, text: &str) -> Option<u64>
    ensures value { result ≡ number_within most text.now }
    ensures within { IfSome result (λ number. number ≤ most) }
{
    if !is_numeral(text) {
        return None;
    }
    let number = text.parse::<u64>().ok()?;
    (number <= most).then_some(number)
}

/// An option of the command line, with its value.
#[derive(Clone, Copy)]
pub struct Setting<'w> {
    option: &'w str,
    value: &'w str,
}

/// The setting of a word with `=`, cut at the first one.
fn setting_in(word: &str) -> Option<Setting<'_>>
    ensures { option_map set result ≡ setting_in word.now }
{
    let (option, value) = word.split_once('=')?;
    Some(Setting { option, value })
}

/// The first setting of the words and the words after it. There is none where there are no words, or
/// where one alone is left that would need a value.
fn first_setting(words: &[String]) -> Option<(Setting<'_>, &[String])>
    ensures { MatchOption result
        ((length words.now ≡ 0) ⊎ (settings_of (map string_bytes words.now) ≡ None))
        (λ first. IsFirst (set first.0) (map string_bytes words.now) (map string_bytes first.1.now)) }
{
    let (word, rest) = words.split_first()?;
    if let Some(setting) = setting_in(word.as_str()) {
        return Some((setting, rest));
    }
    let (value, rest) = rest.split_first()?;
    let setting = Setting {
        option: word.as_str(),
        value: value.as_str(),
    };
    Some((setting, rest))
}

/// The value that the words give this option, the first where it stands twice.
pub fn value_of<'w>(option: &str, words: &'w [String]) -> Option<&'w str>
    ensures { IfSome (settings_of (map string_bytes words.now))
        (λ settings. option_map (λ value. value.now) result ≡ value_of option.now settings) }
{
    let mut rest = words;
    while !rest.is_empty() {
        let (setting, later) = first_setting(rest)?;
        if setting.option == option {
            return Some(setting.value);
        }
        rest = later;
    }
    None
}

/// Whether an option is one of those that there are.
#[tactic(auto, using(wm_collections::proofs::Lists::list_any_after))]
fn is_among(option: &str, options: &[&str]) -> bool
    ensures { result ≡ list_any (λ own. bytes_eq own option.now) (map (λ own. own.now) options.now) }
{
    options.contains(&option)
}

/// Whether the words are settings of these options, none twice.
pub fn are_options(options: &[&str], words: &[String]) -> bool
    ensures { result ≡ option_map_or (are_options (map (λ own. own.now) options.now))
        (settings_of (map string_bytes words.now)) false }
{
    let mut rest = words;
    while !rest.is_empty() {
        let Some((setting, later)) = first_setting(rest) else {
            return false;
        };
        if !is_among(setting.option, options) || value_of(setting.option, later).is_some() {
            return false;
        }
        rest = later;
    }
    true
}
