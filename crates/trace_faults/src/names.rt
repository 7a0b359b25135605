//! The names that a wrong word may have been meant for.
ghost use Rattle.std.specs.Prelude.{◌≡◌, IfOk, map};
ghost use Rattle.trace_faults.specs.Names.{call_names as call_names_by, first_names as first_names_by, names_of, nearest_of, other_names as other_names_by};
ghost use Rattle.trace_lines.specs.Asked.{begins_with_digit as begins_with_digit_byte};

use call_table::CallName;
use std::alloc::{AllocError, Global};
use strsim::generic_levenshtein;
use trace_words::is_name;

/// The name that the unknown word of a line may be meant for, by the line's first word. Empty if none is near.
pub(crate) fn meant_name(
    global: Global,
    first: &[u8],
    word: &[u8],
) -> Result<&'static [u8], AllocError>
    ensures { IfOk result (λ name. name.now ≡ nearest_of word.now (names_of first.now)) }
{
    if begins_with_digit(first) {
        return nearest_call(global, word);
    }
    nearest(global, word, other_names(first))
}

fn begins_with_digit(word: &[u8]) -> bool
    ensures { result ≡ begins_with_digit_byte word.now }
{
    matches!(word, [b'0'..=b'9', ..])
}

/// The nearest name of a call.
fn nearest_call(global: Global, word: &[u8]) -> Result<&'static [u8], AllocError>
    ensures { IfOk result (λ name. name.now ≡ nearest_of word.now call_names_by) }
{
    let names = call_names(global)?;
    nearest(global, word, names.as_slice())
}

/// The name with the fewest edits to a word, among those at most a third of the word's bytes away. Empty if there is
/// none.
fn nearest(global: Global, word: &[u8], names: &[&'static str]) -> Result<&'static [u8], AllocError>
    ensures { IfOk result (λ name. name.now ≡ nearest_of word.now (map (λ name. name.now) names.now)) }
{
    let mut found: &'static [u8] = b"";
    let mut least = word.len() / 3 + 1;
    for name in names {
        let name: &'static str = name;
        let name: &'static [u8] = name.as_bytes();
        let apart = generic_levenshtein(global, name, word)?;
        if apart < least {
            least = apart;
            found = name;
        }
    }
    Ok(found)
}

fn call_names(global: Global) -> Result<Vec<&'static str>, AllocError>
    ensures { IfOk result (λ names. map (λ name. name.now) names.items ≡ call_names_by) }
{
    let mut names = Vec::new(global);
    for call in CallName::all() {
        names.push(call.row().word)?;
    }
    Ok(names)
}

/// The names that the unknown word of another line may be meant for, by the line's first word.
fn other_names(first: &[u8]) -> &'static [&'static str]
    ensures { map (λ name. name.now) result.now ≡ other_names_by first.now }
{
    if is_name(first, b"free") {
        return &["shared", "guest"];
    }
    if is_name(first, b"word") || is_name(first, b"show") || is_name(first, b"poke") {
        return &["host", "hyp", "guest"];
    }
    first_names()
}

fn first_names() -> &'static [&'static str]
    ensures { map (λ name. name.now) result.now ≡ first_names_by }
{
    &[
        "geometry", "cpus", "log", "memory", "device", "carve", "boot", "start", "word", "free",
        "show", "poke",
    ]
}
