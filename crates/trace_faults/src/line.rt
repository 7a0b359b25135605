//! Faults of a line by itself.
ghost use Rattle.std.specs.Prelude.{◌≡◌, ◌++◌, IfOk, OnOk};
ghost use Rattle.trace_faults.specs.Spots.{asked, byte_found as byte_found_by, byte_text as byte_text_by, counted_spot, line_spot as line_spot_by, meant, spot_in, unknown_at as unknown_at_by, unknown_text as unknown_text_by, unknown_spot, wrong_spot};

use crate::column::{space_column, stray_column};
use crate::form::{first_wrong, forms};
use crate::names::meant_name;
use crate::saying::{Spot, at, at_word};
use crate::wanted::{place_wanted, unknown_place, unknown_wanted};
use std::alloc::{AllocError, Global};
use trace_lines::LineFault;
use trace_words::Words;

/// Where a fault of a line is. `booted`: a line before it is `boot`.
pub(crate) fn line_spot(
    global: Global,
    number: u64,
    line: &[u8],
    fault: LineFault,
    booted: bool,
) -> Result<Spot, AllocError>
    ensures { IfOk result (λ spot. spot_in spot ≡ line_spot_by number line.now fault booted) }
{
    match fault {
        LineFault::Long => at(global, number, 257, b"a longer line", b"256 bytes at most"),
        LineFault::Byte => {
            let column = stray_column(line);
            at(global, number, column, byte_found(line), b"printable ASCII")
        }
        LineFault::Space => {
            at(
                global,
                number,
                space_column(line),
                b"a space",
                b"one between two words",
            )
        }
        LineFault::Word => unknown(global, number, line),
        LineFault::Place => {
            let words = Words::of(line);
            let first = words.get(0).unwrap_or(b"");
            at_word(global, number, line, 0, place_wanted(first, booted))
        }
        LineFault::Count => counted(global, number, line),
        LineFault::Form => wrong(global, number, line),
    }
}

/// The first byte that no line may have, in words.
fn byte_found(line: &[u8]) -> &'static [u8]
    ensures { result.now ≡ byte_found_by line.now }
{
    for byte in line {
        if *byte < 0x20 || *byte > 0x7e {
            return byte_text(*byte);
        }
    }
    b"another byte"
}

fn byte_text(byte: u8) -> &'static [u8]
    ensures { result.now ≡ byte_text_by byte }
{
    match byte {
        b'\t' => b"a tab",
        b'\r' => b"a carriage return",
        _ => b"another byte",
    }
}

/// The word that is unknown or missing.
fn unknown(global: Global, number: u64, line: &[u8]) -> Result<Spot, AllocError>
    ensures { IfOk result (λ spot. spot_in spot ≡ unknown_spot number line.now) }
{
    let first = Words::of(line).get(0).unwrap_or(b"");
    unknown_at(global, number, line, first, unknown_place(first))
}

/// The same by the line's first word, and the place of the word.
fn unknown_at(
    global: Global,
    number: u64,
    line: &[u8],
    first: &[u8],
    place: usize,
) -> Result<Spot, AllocError>
    ensures { IfOk result (λ spot. spot_in spot ≡ unknown_at_by number line.now first.now place) }
{
    let word = Words::of(line).get(place).unwrap_or(b"");
    let wanted = unknown_text(global, first, word)?;
    at_word(global, number, line, place, wanted.as_slice())
}

/// What is expected for an unknown word, and the name that it may be meant for.
#[tactic(auto, unfolding(crate::specs::Spots::unknown_text))]
fn unknown_text(global: Global, first: &[u8], word: &[u8]) -> Result<Vec<u8>, AllocError>
    ensures { IfOk result (λ said. said.items ≡ unknown_text_by first.now word.now) }
{
    let mut said = Vec::from_slice(global, unknown_wanted(first))?;
    let name = meant_name(global, first, word)?;
    add_meant(&mut said, global, name)?;
    Ok(said)
}

/// Adds the question whether a name was meant.
fn add_meant(said: &mut Vec<u8>, global: Global, name: &[u8]) -> Result<(), AllocError>
    ensures { OnOk result (said.new.items ≡ said.old.items ++ meant name.now) }
{
    if name.is_empty() {
        return Ok(());
    }
    let question = question(global, name)?;
    said.extend_from_slice(question.as_slice())
}

fn question(global: Global, name: &[u8]) -> Result<Vec<u8>, AllocError>
    ensures { IfOk result (λ said. said.items ≡ asked name.now) }
{
    let mut said = Vec::from_slice(global, b"; did you mean ")?;
    said.extend_from_slice(name)?;
    said.extend_from_slice(b"?")?;
    Ok(said)
}

/// The word that is missing, or the first that is too many.
fn counted(global: Global, number: u64, line: &[u8]) -> Result<Spot, AllocError>
    ensures { IfOk result (λ spot. spot_in spot ≡ counted_spot number line.now) }
{
    let words = Words::of(line);
    let forms = forms(&words);
    let count = words.count();
    match forms.get(count) {
        Some(form) => at_word(global, number, line, count, form.wanted()),
        None => at_word(global, number, line, forms.count(), b"the line's end"),
    }
}

/// The first word that isn't of its form.
fn wrong(global: Global, number: u64, line: &[u8]) -> Result<Spot, AllocError>
    ensures { IfOk result (λ spot. spot_in spot ≡ wrong_spot number line.now) }
{
    let words = Words::of(line);
    let forms = forms(&words);
    let place = first_wrong(&words, forms);
    match forms.get(place) {
        Some(form) => at_word(global, number, line, place, form.wanted()),
        None => at_word(global, number, line, place, b"the line's end"),
    }
}
