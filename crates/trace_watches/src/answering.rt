//! The answer of a check, with what is missed of watches.
ghost use Rattle.std.specs.Prelude.{◌≡◌, ◌+◌, ◌++◌, IfOk, OnOk, map, option_copied};
ghost use Rattle.trace_check.specs.Checks.{miss_line, miss_lines, none_text, sum_text};
ghost use Rattle.trace_watches.specs.Checked.{IsAnswer, end_text as end_text_by, front_of as front_of_by, is_clean_else as is_clean_else_by, put_before as put_before_by};
ghost use Rattle.trace_watches.specs.View.{miss_in};

use crate::words::behind;
use std::alloc::{AllocError, Global};
use trace_check::{Checked, Miss};
use trace_faults::add_file_line;
use trace_words::is_name;

/// Adds whether anything is expected.
fn add_none(text: &mut Vec<u8>, name: &str, expected: u64) -> Result<(), AllocError>
    ensures { OnOk result (text.new.items ≡ text.old.items ++ none_text name.now expected) }
{
    if expected != 0 {
        return Ok(());
    }
    add_file_line(text, name, b"nothing is expected")
}

/// Adds the line of what is expected and wrong.
fn add_sum(
    text: &mut Vec<u8>,
    global: Global,
    name: &str,
    expected: u64,
    wrong: u64,
) -> Result<(), AllocError>
    ensures { OnOk result (text.new.items ≡ text.old.items ++ sum_text name.now expected wrong) }
{
    let said = format!(in global; "{expected} expected, {wrong} wrong")?;
    add_file_line(text, name, said.as_bytes())
}

/// The last lines of a check.
fn end_text(global: Global, name: &str, expected: u64, wrong: u64) -> Result<Vec<u8>, AllocError>
    ensures { IfOk result (λ text. text.items ≡ end_text_by name.now expected wrong) }
{
    let mut text = Vec::new(global);
    add_none(&mut text, name, expected)?;
    add_sum(&mut text, global, name, expected, wrong)?;
    Ok(text)
}

fn add_miss(
    text: &mut Vec<u8>,
    global: Global,
    name: &str,
    line: u64,
    said: &[u8],
) -> Result<(), AllocError>
    ensures { OnOk result (text.new.items ≡ text.old.items ++ miss_line name.now (line, said.now)) }
{
    let place = format!(in global; ":{line}: ")?;
    text.extend_from_slice(name.as_bytes())?;
    text.extend_from_slice(place.as_bytes())?;
    text.extend_from_slice(said)?;
    text.extend_from_slice(b"\n")?;
    Ok(())
}

/// A line for each miss.
fn lines_of_misses(global: Global, name: &str, missed: &[Miss]) -> Result<Vec<u8>, AllocError>
    ensures { IfOk result (λ text. text.items ≡ miss_lines name.now (map miss_in missed.now)) }
{
    let mut text = Vec::new(global);
    for miss in missed {
        add_miss(&mut text, global, name, miss.line, miss.said.as_slice())?;
    }
    Ok(text)
}

/// A text without this end, if it ends so.
fn front_of<'a>(text: &'a [u8], end: &[u8]) -> Option<&'a [u8]>
    ensures { option_copied result ≡ front_of_by text.now end.now }
{
    let count = text.len().saturating_sub(end.len());
    if is_name(behind(text, count), end) {
        Some(&text[..count])
    } else {
        None
    }
}

/// A text with more before its end, which becomes another.
fn put_before(
    global: Global,
    text: &[u8],
    end: &[u8],
    more: &[u8],
    new: &[u8],
) -> Result<Vec<u8>, AllocError>
    ensures { IfOk result (λ put. put.items ≡ put_before_by text.now end.now more.now new.now) }
{
    match front_of(text, end) {
        Some(front) => {
            let mut put = Vec::from_slice(global, front)?;
            put.extend_from_slice(more)?;
            put.extend_from_slice(new)?;
            Ok(put)
        }
        None => {
            let mut put = Vec::from_slice(global, text)?;
            put.extend_from_slice(more)?;
            Ok(put)
        }
    }
}

/// Whether a check is clean but for watches.
fn is_clean_else(global: Global, name: &str, own: &Checked) -> Result<bool, AllocError>
    ensures { IfOk result (λ clean. clean ≡ is_clean_else_by name.now own.now) }
{
    if own.expected != 0 {
        return Ok(own.clean);
    }
    let end = end_text(global, name, 0, 0)?;
    Ok(own.wrong == 0 && is_name(own.text.as_slice(), end.as_slice()))
}

/// A sum of counts. No memory holds so much that it would be too large.
fn more(count: u64, others: usize) -> Result<u64, AllocError>
    ensures { IfOk result (λ sum. sum ≡ count + others) }
{
    match count.checked_add(others as u64) {
        Some(sum) => Ok(sum),
        None => Err(AllocError),
    }
}

/// The answer of a check, by that to the trace without its watches, and by what is missed of so many watches.
pub(crate) fn answered(
    global: Global,
    name: &str,
    own: &Checked,
    count: usize,
    missed: &[Miss],
) -> Result<Checked, AllocError>
    ensures { IfOk result (IsAnswer name.now own.now count (map miss_in missed.now)) }
{
    let expected = more(own.expected, count)?;
    let wrong = more(own.wrong, missed.len())?;
    let end = end_text(global, name, own.expected, own.wrong)?;
    let lines = lines_of_misses(global, name, missed)?;
    let new = end_text(global, name, expected, wrong)?;
    let text = put_before(
        global,
        own.text.as_slice(),
        end.as_slice(),
        lines.as_slice(),
        new.as_slice(),
    )?;
    let clean = is_clean_else(global, name, own)?;
    Ok(Checked {
        text,
        expected,
        wrong,
        clean: clean && missed.is_empty(),
    })
}
