//! The values of fields.
ghost use Rattle.std.specs.Prelude.{◌≡◌, IfOk, codes, option_map};
ghost use Rattle.serde_json.specs.View.{view};
ghost use Rattle.std.specs.List.{list_any};
ghost use Rattle.std.specs.Str.{bytes_eq};
ghost use Rattle.report_json.specs.Forms.{data_of, has_kind as has_kind_of, is_exact as is_exact_text, is_word as is_word_text, level_data, number_data, text_data};

use crate::forms::Kind;
use serde_json::Value;
use std::alloc::{AllocError, Global};
use std::str::from_utf8;
use trace_words::{decimal, is_name, number};

/// The least number that a reader of JSON may not keep exactly.
const INEXACT: u64 = 1 << 53;

/// The value of a field of this kind. None if the text isn't of the kind.
pub fn value_of(global: Global, kind: Kind, text: &[u8]) -> Result<Option<Value>, AllocError>
    ensures { IfOk result (λ value. option_map view value ≡ data_of kind text.now) }
{
    if !has_kind(kind, text) {
        return Ok(None);
    }
    match kind {
        Kind::Number => Ok(number_value(text)),
        Kind::Level => Ok(level_value(text)),
        Kind::Hexadecimal | Kind::Word | Kind::OneOf(_) | Kind::Text => text_value(global, text),
    }
}

/// The number that a text is in decimal.
fn number_value(text: &[u8]) -> Option<Value>
    ensures { option_map view result ≡ number_data text.now }
{
    decimal(text).map(|number| Value::from(number))
}

/// Whether a text is -1.
fn is_below_zero(text: &[u8]) -> bool
    ensures { result ≡ bytes_eq text.now (codes "-1") }
{
    is_name(text, b"-1")
}

/// The level that a text is.
fn level_value(text: &[u8]) -> Option<Value>
    ensures { option_map view result ≡ level_data text.now }
{
    if is_below_zero(text) {
        Some(Value::from(-1i64))
    } else {
        number_value(text)
    }
}

/// The string of a text that is UTF-8.
#[tactic(auto, using(crate::proofs::Texts::text_is, crate::proofs::Texts::text_isnt))]
fn text_value(global: Global, text: &[u8]) -> Result<Option<Value>, AllocError>
    ensures { IfOk result (λ value. option_map view value ≡ text_data text.now) }
{
    match from_utf8(text) {
        Ok(text) => Ok(Some(Value::try_from_str(global, text)?)),
        Err(_) => Ok(None),
    }
}

/// Whether a text is of a kind.
fn has_kind(kind: Kind, text: &[u8]) -> bool
    ensures { result ≡ has_kind_of kind text.now }
{
    match kind {
        Kind::Number => is_exact(text),
        Kind::Level => is_below_zero(text) || is_exact(text),
        Kind::Hexadecimal => text.starts_with(b"0x") && number(text).is_some(),
        Kind::Word => is_word(text),
        Kind::OneOf(words) => is_one(words, text),
        Kind::Text => true,
    }
}

/// Whether a text is a number below 2^53 in decimal.
fn is_exact(text: &[u8]) -> bool
    ensures { result ≡ is_exact_text text.now }
{
    match decimal(text) {
        Some(number) => number < INEXACT,
        None => false,
    }
}

/// Whether a text has a byte, and none that is a space.
fn is_word(text: &[u8]) -> bool
    ensures { result ≡ is_word_text text.now }
{
    !text.is_empty() && !text.contains(&b' ')
}

/// Whether a text is one of these words.
fn is_one(words: &[&str], text: &[u8]) -> bool
    ensures { result ≡ list_any (λ word. bytes_eq word.now text.now) words.now }
{
    words.iter().any(|word| word.as_bytes() == text)
}
