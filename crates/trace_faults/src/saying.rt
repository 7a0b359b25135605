//! A spot, with its words.
ghost use Rattle.std.specs.Prelude.{◌≡◌, ◌++◌, IfOk, OnOk};
ghost use Rattle.trace_faults.specs.Spots.{at as at_by, at_word as at_word_by, of_line as of_line_by, said_of, spot_in, spot_line, with_fault as with_fault_by, word_text};

use crate::column::word_column;
use std::alloc::{AllocError, Global};
use trace_text::Fault;
use trace_words::Words;

/// The place of a fault, and its text.
#[derive(Drop)]
pub(crate) struct Spot {
    /// The number of its line, from 1. For a refused boot it is that of the setting at fault, if there is one.
    pub line: u64,
    /// Its column in bytes, from 1.
    pub column: u64,
    /// `found .., wanted ..`. A word of the line is between two backquotes.
    pub said: Vec<u8>,
}

/// The same spot, with the fault's name in front of its text.
pub(crate) fn with_fault(global: Global, fault: Fault, spot: &Spot) -> Result<Spot, AllocError>
    ensures { IfOk result (λ named. spot_in named ≡ with_fault_by fault (spot_in spot.now)) }
{
    let head = format!(in global; "fault {fault}: ")?;
    let mut said = Vec::from_slice(global, head.as_bytes())?;
    said.extend_from_slice(spot.said.as_slice())?;
    Ok(Spot {
        line: spot.line,
        column: spot.column,
        said,
    })
}

/// Adds a line for a spot to a text: `NAME:LINE:COLUMN: ..`.
pub(crate) fn add_spot(
    text: &mut Vec<u8>,
    global: Global,
    name: &str,
    spot: &Spot,
) -> Result<(), AllocError>
    ensures { OnOk result (text.new.items ≡ text.old.items ++ spot_line name.now (spot_in spot.now)) }
{
    let line = spot.line;
    let column = spot.column;
    let place = format!(in global; ":{line}:{column}: ")?;
    text.extend_from_slice(name.as_bytes())?;
    text.extend_from_slice(place.as_bytes())?;
    text.extend_from_slice(spot.said.as_slice())?;
    text.extend_from_slice(b"\n")?;
    Ok(())
}

/// A spot whose find is described, not a word of the line.
pub(crate) fn at(
    global: Global,
    line: u64,
    column: u64,
    found: &[u8],
    wanted: &[u8],
) -> Result<Spot, AllocError>
    ensures { IfOk result (λ spot. spot_in spot ≡ at_by line column found.now wanted.now) }
{
    let mut said = Vec::from_slice(global, b"found ")?;
    said.extend_from_slice(found)?;
    said.extend_from_slice(b", wanted ")?;
    said.extend_from_slice(wanted)?;
    Ok(Spot { line, column, said })
}

/// A text between two backquotes.
fn quoted(global: Global, text: &[u8]) -> Result<Vec<u8>, AllocError>
    ensures { IfOk result (λ said. said.items ≡ word_text text.now) }
{
    let mut said = Vec::from_slice(global, b"`")?;
    said.extend_from_slice(text)?;
    said.extend_from_slice(b"`")?;
    Ok(said)
}

/// The spot of a whole line in place of which another was expected.
pub(crate) fn of_line(
    global: Global,
    number: u64,
    line: &[u8],
    wanted: &[u8],
) -> Result<Spot, AllocError>
    ensures { IfOk result (λ spot. spot_in spot ≡ of_line_by number line.now wanted.now) }
{
    let found = quoted(global, line)?;
    at(global, number, 1, found.as_slice(), wanted)
}

/// The word at a place of a line, or the line's end if there is no such word.
pub(crate) fn at_word(
    global: Global,
    number: u64,
    line: &[u8],
    place: usize,
    wanted: &[u8],
) -> Result<Spot, AllocError>
    ensures { IfOk result (λ spot. spot_in spot ≡ at_word_by number line.now place wanted.now) }
{
    let column = word_column(line, place);
    match Words::of(line).get(place) {
        Some(word) => {
            let found = quoted(global, word)?;
            at(global, number, column, found.as_slice(), wanted)
        }
        None => at(global, number, column, b"the line's end", wanted),
    }
}
