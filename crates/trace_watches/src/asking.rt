//! A query behind a step, and what is recorded for it.
ghost use Rattle.std.specs.Prelude.{◌≡◌, ◌<◌, [], ◌∷◌, ◌++◌, IfOk, OnOk, filter, length, map, not, option_map};
ghost use Rattle.trace_check.specs.Records.{bytes_of as bytes_of_by};
ghost use Rattle.trace_reader.specs.Reading.{lines_of};
ghost use Rattle.trace_values.specs.Expansions.{note_at as note_at_by};
ghost use Rattle.trace_watches.specs.View.{watch_in};
ghost use Rattle.trace_watches.specs.Watches.{query_of, word_at as word_at_place};
ghost use Rattle.trace_watches.specs.Watched.{IsNoted, is_of_cpu as is_of_cpu_by, others as others_by, watched as watched_by};

use crate::listing::WatchLine;
use crate::words::{has_start, is_of_cpu, word_at};
use std::alloc::{AllocError, Allocator, Global};
use trace_cases::record;
use trace_reader::lines;
use trace_values::{bytes_of, note_at};

/// Adds the lines that are no steps of the CPU of a step.
fn add_of_others(text: &mut Vec<u8>, step: &[u8], lines: &[&[u8]]) -> Result<(), AllocError>
    ensures { OnOk result
        (text.new.items
        ≡ text.old.items
        ++ bytes_of_by
        (filter (λ line. not (is_of_cpu_by step.now line)) (map (λ line. line.now) lines.now))) }
{
    for line in lines {
        if !is_of_cpu(step, line) {
            text.extend_from_slice(line)?;
            text.extend_from_slice(b"\n")?;
        }
    }
    Ok(())
}

/// Adds the lines behind a step that may come before the query, by those before the step and those behind it.
fn add_others(
    text: &mut Vec<u8>,
    step: &[u8],
    before: &[&[u8]],
    rest: &[&[u8]],
) -> Result<(), AllocError>
    ensures { OnOk result
        (text.new.items
        ≡ text.old.items
        ++ bytes_of_by
        (others_by step.now (map (λ line. line.now) before.now)
        (map (λ line. line.now) rest.now))) }
{
    if has_start(before) {
        return add_of_others(text, step, rest);
    }
    Ok(())
}

/// Adds the query of a watch, as a step of the CPU of another.
fn add_asked(text: &mut Vec<u8>, step: &[u8], watch: WatchLine<'_>) -> Result<(), AllocError>
    ensures { OnOk result
        (text.new.items
        ≡ text.old.items
        ++ bytes_of_by ((word_at_place step.now 0 ++ query_of watch.entry.line.now) ∷ [])) }
{
    text.extend_from_slice(word_at(step, 0))?;
    watch.add_query(text)?;
    text.extend_from_slice(b"\n")?;
    Ok(())
}

/// The trace in which the query of a watch comes after the step at a place.
fn watched(
    global: Global,
    lines: &[&[u8]],
    place: usize,
    step: &[u8],
    watch: WatchLine<'_>,
) -> Result<Vec<u8>, AllocError>
    requires { place < length lines.now }
    ensures { IfOk result
        (λ text. text.items
        ≡ bytes_of_by
        (watched_by (map (λ line. line.now) lines.now) place step.now (watch_in watch.entry))) }
{
    let mut text = bytes_of(global, &lines[..place + 1])?;
    add_others(&mut text, step, &lines[..place], &lines[place + 1..])?;
    add_asked(&mut text, step, watch)?;
    Ok(text)
}

/// The expectation behind the last line of a recorded text.
fn last_note(global: Global, recorded: &[u8]) -> Result<Option<Vec<u8>>, AllocError>
    ensures { IfOk result
        (λ note. option_map (λ note. note.items) note ≡ note_at_by (lines_of recorded.now) 0) }
{
    let lines = lines(global, recorded)?;
    match note_at(lines.as_slice(), 0) {
        Some(note) => Ok(Some(Vec::from_slice(global, note)?)),
        None => Ok(None),
    }
}

/// The expectation that is recorded behind the query of a watch, which comes after the step at a place. `alloc` is where the tables of
/// the trees lie. Err if memory was refused.
pub(crate) fn noted<A: Allocator + Copy>(
    global: Global,
    alloc: A,
    lines: &[&[u8]],
    place: usize,
    step: &[u8],
    watch: WatchLine<'_>,
) -> Result<Option<Vec<u8>>, AllocError>
    requires { place < length lines.now }
    ensures { IfOk result
        (λ note. IsNoted A (map (λ line. line.now) lines.now) place step.now (watch_in watch.entry)
        (option_map (λ note. note.items) note)) }
{
    let text = watched(global, lines, place, step, watch)?;
    let recorded = record(global, alloc, text.as_slice())?;
    last_note(global, recorded.as_slice())
}
