//! What is missed of watches: of each the first step after which it doesn't hold.
ghost use Rattle.std.specs.Prelude.{◌≡◌, ◌<◌, IfOk, OnOk, length, map, option_copied, option_map};
ghost use Rattle.trace_cases.specs.Kinds.{trimmed as trimmed_by};
ghost use Rattle.trace_values.specs.Expansions.{text_in as text_in_line};
ghost use Rattle.trace_watches.specs.Told.{AddsTold, IsTold, Tells, TellsAll, TellsLine, miss_at as miss_at_by, missed_by as missed_by_note};
ghost use Rattle.trace_watches.specs.View.{miss_in, watch_in};
ghost use Rattle.trace_watches.specs.Watched.{are_wanted as are_wanted_by, begins as begins_by, ends_word as ends_word_by, got_of as got_of_note, is_wanted as is_wanted_by, meets as meets_by, without_ok as without_ok_by};

use crate::asking::noted;
use crate::listing::WatchLine;
use crate::words::{behind, is_step};
use std::alloc::{AllocError, Allocator, Global};
use trace_check::Miss;

/// A text without the spaces around it.
fn trimmed(text: &[u8]) -> &[u8]
    ensures { result.now ≡ trimmed_by text.now }
{
    text.trim_ascii()
}

/// Whether a word ends before this byte, or before the end of a text.
fn ends_word(next: Option<&u8>) -> bool
    ensures { result ≡ ends_word_by (option_copied next.entry) }
{
    match next {
        Some(byte) => *byte == b' ',
        None => true,
    }
}

/// Whether a text begins with these words.
fn begins(text: &[u8], words: &[u8]) -> bool
    ensures { result ≡ begins_by text.now words.now }
{
    text.starts_with(words) && ends_word(text.get(words.len()))
}

/// A reply without a leading `ok`.
fn without_ok(reply: &[u8]) -> &[u8]
    ensures { result.now ≡ without_ok_by reply.now }
{
    if reply.starts_with(b"ok ") {
        behind(reply, 3)
    } else {
        reply
    }
}

/// Whether a reply begins as is wanted.
fn is_wanted(wanted: &[u8], reply: &[u8]) -> bool
    ensures { result ≡ is_wanted_by wanted.now reply.now }
{
    begins(reply, wanted) || begins(without_ok(reply), wanted)
}

/// Whether each of several replies does.
fn are_wanted(wanted: &[u8], text: &[u8]) -> bool
    ensures { result ≡ are_wanted_by wanted.now text.now }
{
    text.split(|byte| *byte == b'|')
        .all(|part| is_wanted(wanted, trimmed(part)))
}

/// What a recorded expectation says.
fn text_in(note: &[u8]) -> &[u8]
    ensures { result.now ≡ text_in_line note.now }
{
    behind(note, 3)
}

/// Whether what is recorded is as a watch wants it.
fn meets(watch: WatchLine<'_>, note: &Option<Vec<u8>>) -> bool
    ensures { result ≡ meets_by (watch_in watch.entry) (option_map (λ note. note.items) note.now) }
{
    match note {
        Some(note) => are_wanted(watch.wanted(), text_in(note.as_slice())),
        None => false,
    }
}

/// What is recorded.
fn got_of(note: &Option<Vec<u8>>) -> &[u8]
    ensures { result.now ≡ got_of_note (option_map (λ note. note.items) note.now) }
{
    match note {
        Some(note) => text_in(note.as_slice()),
        None => b"nothing",
    }
}

/// The miss of a watch after the step on the line of a number.
fn miss_at(
    global: Global,
    watch: WatchLine<'_>,
    number: usize,
    note: &Option<Vec<u8>>,
) -> Result<Miss, AllocError>
    ensures { IfOk result
        (λ miss. miss_in miss
        ≡ miss_at_by (watch_in watch.entry) number (option_map (λ note. note.items) note.now)) }
{
    let last = format!(in global; " after line {number}")?;
    let mut said = Vec::from_slice(global, b"expected ")?;
    said.extend_from_slice(watch.wanted())?;
    said.extend_from_slice(b", got ")?;
    said.extend_from_slice(got_of(note))?;
    said.extend_from_slice(last.as_bytes())?;
    Ok(Miss {
        line: watch.number as u64,
        said,
    })
}

/// The same, if what is recorded isn't as the watch wants it.
fn missed_by(
    global: Global,
    watch: WatchLine<'_>,
    number: usize,
    note: &Option<Vec<u8>>,
) -> Result<Option<Miss>, AllocError>
    ensures { IfOk result
        (λ missed. option_map miss_in missed
        ≡ missed_by_note (watch_in watch.entry) number
        (option_map (λ note. note.items) note.now)) }
{
    if meets(watch, note) {
        return Ok(None);
    }
    let miss = miss_at(global, watch, number, note)?;
    Ok(Some(miss))
}

/// What is missed of a watch after the step at a place.
fn told_at<A: Allocator + Copy>(
    global: Global,
    alloc: A,
    lines: &[&[u8]],
    place: usize,
    step: &[u8],
    watch: WatchLine<'_>,
) -> Result<Option<Miss>, AllocError>
    requires { place < length lines.now }
    ensures { IfOk result
        (λ missed. IsTold A (map (λ line. line.now) lines.now) (watch_in watch.entry) place step.now
        (option_map miss_in missed)) }
{
    let note = noted(global, alloc, lines, place, step, watch)?;
    missed_by(global, watch, place + 1, &note)
}

/// What is missed of a watch after the line at a place: nothing, if that is no step.
fn line_told<A: Allocator + Copy>(
    global: Global,
    alloc: A,
    lines: &[&[u8]],
    place: usize,
    line: &[u8],
    watch: WatchLine<'_>,
) -> Result<Option<Miss>, AllocError>
    requires { place < length lines.now }
    ensures { IfOk result
        (λ missed. TellsLine A (map (λ line. line.now) lines.now) (watch_in watch.entry) place
        line.now (option_map miss_in missed)) }
{
    if is_step(line) {
        return told_at(global, alloc, lines, place, line, watch);
    }
    Ok(None)
}

/// The first miss of a watch.
fn told<A: Allocator + Copy>(
    global: Global,
    alloc: A,
    lines: &[&[u8]],
    watch: WatchLine<'_>,
) -> Result<Option<Miss>, AllocError>
    ensures { IfOk result
        (λ missed. Tells A (map (λ line. line.now) lines.now) (watch_in watch.entry)
        (option_map miss_in missed)) }
{
    for (place, line) in lines.iter().enumerate() {
        if let Some(miss) = line_told(global, alloc, lines, place, line, watch)? {
            return Ok(Some(miss));
        }
    }
    Ok(None)
}

/// Adds the first miss of a watch.
fn add_told<A: Allocator + Copy>(
    missed: &mut Vec<Miss>,
    global: Global,
    alloc: A,
    lines: &[&[u8]],
    watch: WatchLine<'_>,
) -> Result<(), AllocError>
    ensures { OnOk result
        (AddsTold A (map (λ line. line.now) lines.now) (watch_in watch.entry)
        (map miss_in missed.old.items) (map miss_in missed.new.items)) }
{
    if let Some(miss) = told(global, alloc, lines, watch)? {
        missed.push(miss)?;
    }
    Ok(())
}

/// The first miss of each watch, in order. `alloc` is where the tables of the trees lie. Err if memory was refused.
pub(crate) fn all_told<A: Allocator + Copy>(
    global: Global,
    alloc: A,
    lines: &[&[u8]],
    watches: &[WatchLine<'_>],
) -> Result<Vec<Miss>, AllocError>
    ensures { IfOk result
        (λ missed. TellsAll A (map (λ line. line.now) lines.now) (map watch_in watches.now)
        (map miss_in missed.items)) }
{
    let mut missed = Vec::new(global);
    for watch in watches {
        add_told(&mut missed, global, alloc, lines, *watch)?;
    }
    Ok(missed)
}
