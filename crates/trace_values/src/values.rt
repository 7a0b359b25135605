//! The value of a name: what is recorded where the expectation stands that has it.
ghost use Rattle.std.specs.Prelude.{◌≡◌, ◌+◌, ◌<◌, ◌≤◌, Err, IfOk, IfSome, length, map, option_copied, option_map};
ghost use Rattle.trace_check.specs.Records.{bytes_of as bytes_of_by};
ghost use Rattle.trace_reader.specs.Reading.{lines_of};
ghost use Rattle.trace_values.specs.Expansions.{Asks, IsTold, Says, has_bar as has_bar_by, last_line as last_line_of, misnamed as misnamed_by, note_at as note_at_by, other_at as other_at_by, text_in as text_in_line, value_by as value_by_note, value_told as value_told_by};
ghost use Rattle.trace_values.specs.View.{bound_in, named_in, spot_in};

use crate::faults::{Spot, fault_at, quoted};
use crate::names::{Named, first_word, is_named};
use std::alloc::{AllocError, Allocator, Global};
use trace_cases::record;
use trace_check::expectation;
use trace_reader::lines;

/// What comes of a name.
#[derive(Drop)]
pub(crate) enum Bound {
    Value(Vec<u8>),
    Fault(Spot),
}

/// The place of the last line that is no expectation.
fn last_line(lines: &[&[u8]]) -> Option<usize>
    ensures place { result ≡ last_line_of (map (λ line. line.now) lines.now) }
    ensures below { IfSome result (λ last. last < length lines.now) }
{
    let mut last = None;
    for (place, line) in lines.iter().enumerate() {
        if expectation(line).is_none() {
            last = Some(place);
        }
    }
    last
}

/// The expectation that many lines behind that line.
pub fn note_at<'a>(lines: &[&'a [u8]], count: usize) -> Option<&'a [u8]>
    ensures { option_copied result ≡ note_at_by (map (λ line. line.now) lines.now) count }
{
    let last = last_line(lines)?;
    lines[last + 1..].get(count).copied()
}

/// The bytes of lines, each with its end.
pub fn bytes_of(global: Global, lines: &[&[u8]]) -> Result<Vec<u8>, AllocError>
    ensures { IfOk result (λ text. text.items ≡ bytes_of_by (map (λ line. line.now) lines.now)) }
{
    let mut text = Vec::new(global);
    for line in lines {
        text.extend_from_slice(line)?;
        text.extend_from_slice(b"\n")?;
    }
    Ok(text)
}

/// What an expectation expects.
fn text_in(line: &[u8]) -> &[u8]
    ensures { result.now ≡ text_in_line line.now }
{
    if line.len() < 3 { b"" } else { &line[3..] }
}

/// Whether an expectation has several replies.
fn has_bar(note: &[u8]) -> bool
    ensures { result ≡ has_bar_by note.now }
{
    note.iter().any(|byte| *byte == b'|')
}

/// The fault of a name that has no value, if it is none or stands in no expectation.
fn misnamed(global: Global, named: Named<'_>) -> Result<Option<Spot>, AllocError>
    requires { named.offset < length named.line.now }
    ensures { IfOk result (λ fault. option_map spot_in fault ≡ misnamed_by (named_in named.entry)) }
{
    let name = named.name();
    if !is_named(name) {
        let found = quoted(global, name)?;
        let spot = fault_at(
            global,
            named,
            b"form",
            found.as_slice(),
            b"$ and a name of letters, digits and _",
        )?;
        return Ok(Some(spot));
    }
    if expectation(named.line).is_some() {
        return Ok(None);
    }
    let found = quoted(global, name)?;
    let spot = fault_at(
        global,
        named,
        b"unbound",
        found.as_slice(),
        b"a name that an expectation before it binds",
    )?;
    Ok(Some(spot))
}

/// Something else was found in the place of a name's expectation.
fn other_at(global: Global, named: Named<'_>, found: &[u8]) -> Result<Bound, AllocError>
    requires { named.offset < length named.line.now }
    ensures { IfOk result (λ bound. bound_in bound ≡ Err (other_at_by (named_in named.entry) found.now)) }
{
    let wanted = quoted(global, text_in(named.line))?;
    let spot = fault_at(global, named, b"unbound", found, wanted.as_slice())?;
    Ok(Bound::Fault(spot))
}

/// The value of a name by the expectation that is recorded in its place.
fn value_by(global: Global, named: Named<'_>, note: &[u8]) -> Result<Bound, AllocError>
    requires { named.offset < length named.line.now }
    ensures { IfOk result (λ bound. bound_in bound ≡ value_by_note (named_in named.entry) note.now) }
{
    let found = quoted(global, text_in(note))?;
    if has_bar(note) {
        let spot = fault_at(
            global,
            named,
            b"differs",
            found.as_slice(),
            b"one value in each order",
        )?;
        return Ok(Bound::Fault(spot));
    }
    if named.offset < note.len() && note.starts_with(&named.line[..named.offset]) {
        let value = Vec::from_slice(global, first_word(&note[named.offset..]))?;
        return Ok(Bound::Value(value));
    }
    other_at(global, named, found.as_slice())
}

/// The same, where there may be none.
fn value_told(global: Global, named: Named<'_>, note: Option<&[u8]>) -> Result<Bound, AllocError>
    requires { named.offset < length named.line.now }
    ensures { IfOk result
        (λ bound. bound_in bound
        ≡ value_told_by (named_in named.entry) (option_copied note.entry)) }
{
    match note {
        Some(note) => value_by(global, named, note),
        None => other_at(global, named, b"nothing"),
    }
}

/// The value of a name by a recorded text.
fn value_in(
    global: Global,
    named: Named<'_>,
    recorded: &[u8],
    count: usize,
) -> Result<Bound, AllocError>
    requires { named.offset < length named.line.now }
    ensures { IfOk result
        (λ bound. bound_in bound
        ≡ value_told_by (named_in named.entry) (note_at_by (lines_of recorded.now) count)) }
{
    let lines = lines(global, recorded)?;
    value_told(global, named, note_at(lines.as_slice(), count))
}

/// The value of a name in an expectation of the line at a place.
fn asked<A: Allocator + Copy>(
    global: Global,
    alloc: A,
    lines: &[&[u8]],
    named: Named<'_>,
    last: usize,
) -> Result<Bound, AllocError>
    requires inside { named.offset < length named.line.now }
    requires before { last + 1 < named.number }
    requires below { named.number ≤ length lines.now }
    ensures { IfOk result
        (λ bound. IsTold A (map (λ line. line.now) lines.now) (named_in named.entry) last
        (bound_in bound)) }
{
    let front = bytes_of(global, &lines[..last + 1])?;
    let recorded = record(global, alloc, front.as_slice())?;
    value_in(
        global,
        named,
        recorded.as_slice(),
        named.number - 1 - (last + 1),
    )
}

/// The value of a name in an expectation.
fn value_of<A: Allocator + Copy>(
    global: Global,
    alloc: A,
    lines: &[&[u8]],
    named: Named<'_>,
) -> Result<Bound, AllocError>
    requires inside { named.offset < length named.line.now }
    requires first { 0 < named.number }
    requires below { named.number ≤ length lines.now }
    ensures { IfOk result
        (λ bound. Asks A (map (λ line. line.now) lines.now) (named_in named.entry)
        (bound_in bound)) }
{
    match last_line(&lines[..named.number - 1]) {
        Some(last) => asked(global, alloc, lines, named, last),
        None => other_at(global, named, b"nothing"),
    }
}

/// What comes of the first name of lines.
pub(crate) fn bind<A: Allocator + Copy>(
    global: Global,
    alloc: A,
    lines: &[&[u8]],
    named: Named<'_>,
) -> Result<Bound, AllocError>
    requires inside { named.offset < length named.line.now }
    requires first { 0 < named.number }
    requires below { named.number ≤ length lines.now }
    ensures { IfOk result
        (λ bound. Says A (map (λ line. line.now) lines.now) (named_in named.entry)
        (bound_in bound)) }
{
    match misnamed(global, named)? {
        Some(spot) => Ok(Bound::Fault(spot)),
        None => value_of(global, alloc, lines, named),
    }
}
