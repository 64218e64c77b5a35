//! How single values are read, and what an absent one stands for.
ghost use Rattle.std.specs.Prelude.{◌≡◌, ◌^◌, ◌<◌, option_map, IfSome};
ghost use Rattle.serde_json.specs.View.{view};
ghost use Rattle.wm_request.specs.Requests.{IsShortText};
ghost use Rattle.wm_script.specs.Values.{flag_at, id_in, short_in, whole_at, whole_in};

use crate::parts::{Part, Unread, formed};
use serde_json::Value;
use std::alloc::Global;
use uuid::Uuid;
use wm_collections::Text;
use wm_machine::NUMBERS_END;
use wm_request::MAX_TEXT_BYTES;

/// A truth value; false where there is none.
#[tactic(auto, unfolding(crate::specs::Values::flag_at))]
pub fn flag_at(value: Option<&Value>) -> Option<bool>
    ensures { result ≡ flag_at (option_map (λ found. view found.now) value.entry) }
{
    match value {
        Some(value) => value.as_bool(),
        None => Some(false),
    }
}

/// A whole number from 0 to 2^53 - 1, which isn't written with a fraction or an exponent.
#[tactic(auto, unfolding(crate::specs::Values::whole_in))]
pub fn whole_in(value: &Value) -> Option<u64>
    ensures whole { result ≡ whole_in (view value.now) }
    ensures within { IfSome result (λ whole. whole < 2 ^ 53) }
{
    let whole = value.as_u64()?;
    if whole < NUMBERS_END {
        Some(whole)
    } else {
        None
    }
}

/// Such a number, or this one where there is none.
#[tactic(auto, unfolding(crate::specs::Values::whole_at))]
pub fn whole_at(default: u64, value: Option<&Value>) -> Option<u64>
    ensures { result ≡ whole_at default (option_map (λ found. view found.now) value.entry) }
{
    match value {
        Some(value) => whole_in(value),
        None => Some(default),
    }
}

/// An id, in any of `uuid`'s forms.
#[tactic(auto, unfolding(crate::specs::Values::id_in))]
pub fn id_in(value: &Value) -> Option<Uuid>
    ensures { result ≡ id_in (view value.now) }
{
    Uuid::try_parse(value.as_str()?).ok()
}

/// A text of 1 to 200 bytes.
#[tactic(auto, unfolding(crate::specs::Values::short_in))]
pub fn short_in(value: &Value) -> Option<&str>
    ensures text { option_map (λ text. text.now) result ≡ short_in (view value.now) }
    ensures short { IfSome result (λ text. IsShortText text.now) }
{
    let text = value.as_str()?;
    if !text.is_empty() && text.len() <= MAX_TEXT_BYTES {
        Some(text)
    } else {
        None
    }
}

impl Part for Uuid {
    ghost use Rattle.wm_script.specs.Values.{id_part};

    ghost reading = { id_part };

    fn read(_alloc: Global, value: &Value) -> Result<Uuid, Unread> {
        formed(id_in(value))
    }
}

impl Part for Text {
    ghost use Rattle.wm_script.specs.Values.{text_part};

    ghost reading = { text_part };

    fn read(alloc: Global, value: &Value) -> Result<Text, Unread> {
        Ok(Text::from_str(alloc, formed(short_in(value))?)?)
    }
}
