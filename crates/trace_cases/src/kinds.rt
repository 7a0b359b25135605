//! The expectation of a step whose reply may vary: its texts, and whether others may come, too.
ghost use Rattle.std.specs.Prelude.{◌≡◌, IfOk, map};
ghost use Rattle.trace_cases.specs.Kinds.{behind_word as behind_word_by, is_open as is_open_by, kinds as kinds_by, trimmed as trimmed_by};

use std::alloc::{AllocError, Global};

/// Whether an expectation lets other replies come, too.
pub(crate) fn is_open(text: &[u8]) -> bool
    ensures { result ≡ is_open_by text.now }
{
    text.starts_with(b"sometimes ")
}

/// The text after that word.
fn behind_word(text: &[u8]) -> &[u8]
    ensures { result.now ≡ behind_word_by text.now }
{
    if is_open(text) { &text[10..] } else { text }
}

/// The texts of an expectation, without the spaces around each.
pub(crate) fn kinds(global: Global, text: &[u8]) -> Result<Vec<Vec<u8>>, AllocError>
    ensures { IfOk result (λ v. map (λ v. v.items) v.items ≡ kinds_by text.now) }
{
    let mut kinds = Vec::new(global);
    for part in behind_word(text).split(|byte| *byte == b'|') {
        kinds.push(Vec::from_slice(global, trimmed(part))?)?;
    }
    Ok(kinds)
}

/// A text without the spaces around it.
fn trimmed(text: &[u8]) -> &[u8]
    ensures { result.now ≡ trimmed_by text.now }
{
    text.trim_ascii()
}
