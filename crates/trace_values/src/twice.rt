//! A name of two reservations.
ghost use Rattle.std.specs.Prelude.{◌≡◌, ◌<◌, IfOk, IfSome, OnOk, length, map, option_map};
ghost use Rattle.trace_values.specs.Names.{is_seen as is_seen_by, reserved_in as reserved_in_line, reserves as reserves_line, reserves_next as reserves_next_by, seen_next, twice as twice_of, twice_in as twice_in_line};
ghost use Rattle.trace_values.specs.View.{named_in};
ghost use Rattle.trace_words.specs.Words.{is_silent as is_silent_line};

use crate::names::{Named, dollar_in, first_word};
use std::alloc::{AllocError, Global};
use trace_check::expectation;
use trace_words::{Words, is_name};

/// An empty line, and one that begins with `#`.
fn is_silent(line: &[u8]) -> bool
    ensures { result ≡ is_silent_line line.now }
{
    matches!(line, [] | [b'#', ..])
}

/// Whether a line is a step that reserves a VM.
fn reserves(line: &[u8]) -> bool
    ensures { result ≡ reserves_line line.now }
{
    if is_silent(line) {
        return false;
    }
    is_name(Words::of(line).get(1).unwrap_or(b""), b"vm_reserve")
}

/// How many bytes of an expectation after such a step are before its first name.
fn reserved_in(reserved: bool, line: &[u8]) -> Option<usize>
    ensures offset { result ≡ reserved_in_line reserved line.now }
    ensures below { IfSome result (λ offset. offset < length line.now) }
{
    if reserved && expectation(line).is_some() {
        dollar_in(line)
    } else {
        None
    }
}

/// Whether the expectations after a line are those of such a step.
fn reserves_next(reserved: bool, line: &[u8]) -> bool
    ensures { result ≡ reserves_next_by reserved line.now }
{
    if expectation(line).is_some() {
        reserved
    } else {
        reserves(line)
    }
}

/// Whether a name was seen.
fn is_seen(seen: &[&[u8]], name: &[u8]) -> bool
    ensures { result ≡ is_seen_by (map (λ other. other.now) seen.now) name.now }
{
    for other in seen {
        if is_name(other, name) {
            return true;
        }
    }
    false
}

/// How many bytes of such an expectation are before its first name, if that was seen.
fn twice_in(seen: &Vec<&[u8]>, reserved: bool, line: &[u8]) -> Option<usize>
    ensures offset { result ≡ twice_in_line (map (λ other. other.now) seen.now.items) reserved line.now }
    ensures below { IfSome result (λ offset. offset < length line.now) }
{
    let offset = reserved_in(reserved, line)?;
    if is_seen(seen.as_slice(), first_word(&line[offset..])) {
        return Some(offset);
    }
    None
}

/// Adds the name of such an expectation.
fn add_seen<'a>(seen: &mut Vec<&'a [u8]>, reserved: bool, line: &'a [u8]) -> Result<(), AllocError>
    ensures { OnOk result
        (map (λ other. other.now) seen.new.items
        ≡ seen_next (map (λ other. other.now) seen.old.items) reserved line.entry.now) }
{
    if let Some(offset) = reserved_in(reserved, line) {
        seen.push(first_word(&line[offset..]))?;
    }
    Ok(())
}

/// The first name that a second reservation of these lines has.
pub(crate) fn twice<'a>(global: Global, lines: &[&'a [u8]]) -> Result<Option<Named<'a>>, AllocError>
    ensures name { IfOk result
        (λ found. option_map named_in found ≡ twice_of (map (λ line. line.now) lines.now)) }
    ensures inside { IfOk result (λ found. IfSome found (λ named. named.offset < length named.line.now)) }
{
    let mut seen = Vec::new(global);
    let mut reserved = false;
    for (place, line) in lines.iter().enumerate() {
        if let Some(offset) = twice_in(&seen, reserved, line) {
            return Ok(Some(Named {
                number: place + 1,
                line,
                offset,
            }));
        }
        add_seen(&mut seen, reserved, line)?;
        reserved = reserves_next(reserved, line);
    }
    Ok(None)
}
