//! The watches of a trace, or the place of a line that is like one and is none.
ghost use Rattle.std.specs.Prelude.{◌≡◌, ◌++◌, IfOk, OnOk, map, option_map};
ghost use Rattle.trace_faults.specs.Columns.{word_column as word_column_by};
ghost use Rattle.trace_faults.specs.Spots.{word_text};
ghost use Rattle.trace_values.specs.View.{spot_in};
ghost use Rattle.trace_watches.specs.View.{listed_in, watch_in};
ghost use Rattle.trace_watches.specs.Watches.{
  fault_at as fault_at_by,
  fault_of as fault_of_by,
  form_fault as form_fault_by,
  found_at as found_at_place,
  line_fault as line_fault_by,
  query_of,
  seen_next,
  wanted_of,
  watches_of,
  word_fault as word_fault_by,
};

use crate::words::{behind, has_poke, is_boot, is_marked, word_at};
use std::alloc::{AllocError, Global};
use trace_values::Spot;
use trace_words::{Words, is_name};

/// A watch, `#! owner_of FRAME REPLY`.
#[derive(Clone, Copy)]
pub struct WatchLine<'a> {
    /// The number of its line, counted from 1.
    pub number: usize,
    pub line: &'a [u8],
}

impl<'a> WatchLine<'a> {
    /// The words with which the reply must begin: those behind the frame.
    pub(crate) fn wanted(self) -> &'a [u8]
        ensures { result.now ≡ wanted_of self.entry.line.now }
    {
        let frame = word_at(self.line, 2);
        let rest = behind(self.line, 13);
        behind(rest, frame.len())
    }

    /// Adds the query behind a CPU.
    pub(crate) fn add_query(self, text: &mut Vec<u8>) -> Result<(), AllocError>
        ensures { OnOk result (text.new.items ≡ text.old.items ++ query_of self.entry.line.now) }
    {
        text.extend_from_slice(b" owner_of ")?;
        text.extend_from_slice(word_at(self.line, 2))?;
        Ok(())
    }
}

/// What the lines of a trace have of watches.
#[derive(Drop)]
pub(crate) enum Listed<'a> {
    Watches(Vec<WatchLine<'a>>),
    /// The place of the first line that is like a watch and is none.
    Fault(Spot),
}

/// A text between two backquotes.
fn quoted(global: Global, text: &[u8]) -> Result<Vec<u8>, AllocError>
    ensures { IfOk result (λ said. said.items ≡ word_text text.now) }
{
    let mut said = Vec::from_slice(global, b"`")?;
    said.extend_from_slice(text)?;
    said.extend_from_slice(b"`")?;
    Ok(said)
}

/// A fault at a column of a line.
fn fault_at(
    global: Global,
    number: usize,
    column: u64,
    found: &[u8],
    wanted: &[u8],
) -> Result<Spot, AllocError>
    ensures { IfOk result (λ spot. spot_in spot ≡ fault_at_by number column found.now wanted.now) }
{
    let mut said = Vec::from_slice(global, b"fault form: found ")?;
    said.extend_from_slice(found)?;
    said.extend_from_slice(b", wanted ")?;
    said.extend_from_slice(wanted)?;
    Ok(Spot {
        line: number as u64,
        column,
        said,
    })
}

/// A fault of a whole line.
fn line_fault(
    global: Global,
    number: usize,
    line: &[u8],
    wanted: &[u8],
) -> Result<Option<Spot>, AllocError>
    ensures { IfOk result
        (λ spot. option_map spot_in spot ≡ Some (line_fault_by number line.now wanted.now)) }
{
    let found = quoted(global, line)?;
    let spot = fault_at(global, number, 1, found.as_slice(), wanted)?;
    Ok(Some(spot))
}

/// The word at a place of a line, between backquotes, or the line's end.
fn found_at(global: Global, line: &[u8], place: usize) -> Result<Vec<u8>, AllocError>
    ensures { IfOk result (λ found. found.items ≡ found_at_place line.now place) }
{
    match Words::of(line).get(place) {
        Some(word) => quoted(global, word),
        None => Vec::from_slice(global, b"the line's end"),
    }
}

/// The column, from 1, of the word at a place, counted from 0. One past the line's end if there is no such word.
fn word_column(line: &[u8], place: usize) -> u64
    ensures { result ≡ word_column_by line.now place }
{
    let mut left = place;
    for (index, byte) in line.iter().enumerate() {
        if left == 0 {
            return index as u64 + 1;
        }
        if *byte == b' ' {
            left -= 1;
        }
    }
    line.len() as u64 + 1
}

/// A fault of the word at a place.
fn word_fault(
    global: Global,
    number: usize,
    line: &[u8],
    place: usize,
    wanted: &[u8],
) -> Result<Option<Spot>, AllocError>
    ensures { IfOk result
        (λ spot. option_map spot_in spot ≡ Some (word_fault_by number line.now place wanted.now)) }
{
    let found = found_at(global, line, place)?;
    let column = word_column(line, place);
    let spot = fault_at(global, number, column, found.as_slice(), wanted)?;
    Ok(Some(spot))
}

/// What is wrong with the words of a watch.
fn form_fault(global: Global, number: usize, line: &[u8]) -> Result<Option<Spot>, AllocError>
    ensures { IfOk result (λ spot. option_map spot_in spot ≡ form_fault_by number line.now) }
{
    if Words::of(line).has_empty() {
        return line_fault(global, number, line, b"words with one space between them");
    }
    if !is_name(word_at(line, 0), b"#!") {
        return word_fault(global, number, line, 0, b"#! and a query");
    }
    if !is_name(word_at(line, 1), b"owner_of") {
        return word_fault(global, number, line, 1, b"owner_of");
    }
    if trace_words::number(word_at(line, 2)).is_none() {
        return word_fault(global, number, line, 2, b"FRAME, a number");
    }
    if word_at(line, 3).is_empty() {
        return word_fault(global, number, line, 3, b"a reply");
    }
    Ok(None)
}

/// What is wrong with a line, in a trace that has a poke or none, behind `boot` or before it.
fn fault_of(
    global: Global,
    poked: bool,
    booted: bool,
    number: usize,
    line: &[u8],
) -> Result<Option<Spot>, AllocError>
    ensures { IfOk result
        (λ spot. option_map spot_in spot ≡ fault_of_by poked booted number line.now) }
{
    if !is_marked(line) {
        return Ok(None);
    }
    if booted {
        return line_fault(global, number, line, b"a watch before boot");
    }
    if poked {
        return line_fault(global, number, line, b"a watch in a trace without a poke");
    }
    form_fault(global, number, line)
}

/// Adds a line, if it is a watch.
fn add_seen<'a>(
    seen: &mut Vec<WatchLine<'a>>,
    number: usize,
    line: &'a [u8],
) -> Result<(), AllocError>
    ensures { OnOk result
        (map watch_in seen.new.items ≡ seen_next (map watch_in seen.old.items) number line.entry.now) }
{
    if is_marked(line) {
        seen.push(WatchLine { number, line })?;
    }
    Ok(())
}

/// The watches of a trace, or the first fault.
pub(crate) fn watches<'a>(global: Global, lines: &[&'a [u8]]) -> Result<Listed<'a>, AllocError>
    ensures { IfOk result (λ listed. listed_in listed ≡ watches_of (map (λ line. line.now) lines.now)) }
{
    let poked = has_poke(lines);
    let mut seen = Vec::new(global);
    let mut booted = false;
    for (place, line) in lines.iter().enumerate() {
        let number = place + 1;
        if let Some(spot) = fault_of(global, poked, booted, number, line)? {
            return Ok(Listed::Fault(spot));
        }
        add_seen(&mut seen, number, line)?;
        booted = booted || is_boot(line);
    }
    Ok(Listed::Watches(seen))
}
