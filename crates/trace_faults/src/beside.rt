//! The text beside the report of a trace: where its fault is, or why it makes no step, or no race.
ghost use Rattle.std.specs.Prelude.{◌≡◌, ◌++◌, IfOk, OnOk, codes, map, option_copied};
ghost use Rattle.std.specs.List.{list_all, list_any};
ghost use Rattle.std.specs.Str.{bytes_eq};
ghost use Rattle.trace_faults.specs.Beside.{
  boot_fault as boot_fault_by,
  fault_named as fault_named_by,
  fault_reported as fault_reported_by,
  file_line,
  layout_fault as layout_fault_by,
  line_fault as line_fault_by,
  place_of as place_of_by,
  plain_fault as plain_fault_by,
  remark as remark_by,
  text_beside as said_beside_by,
};
ghost use Rattle.trace_reader.specs.Reading.{lines_of};
ghost use Rattle.trace_words.specs.Words.{is_silent as is_silent_line};

use crate::placing::{add_place, has_booted};
use page_state::LayoutFault;
use std::alloc::{AllocError, Global};
use trace_lines::LineFault;
use trace_reader::lines;
use trace_text::Fault;
use trace_words::{Words, decimal, is_name};
use world::BootFault;

/// The text beside the report of a trace whose run had this fault at the line of this number, or none. `name` is the
/// trace's file, and `races` says whether the steps after `start` are made at once. Empty if there is nothing to say.
pub fn text_beside(
    global: Global,
    name: &str,
    trace: &[u8],
    fault: Option<(u64, Fault)>,
    races: bool,
) -> Result<Vec<u8>, AllocError>
    ensures { IfOk result (λ text. text.items ≡ said_beside_by name.now (lines_of trace.now) fault races) }
{
    let lines = lines(global, trace)?;
    let mut text = Vec::new(global);
    match fault {
        Some((number, fault)) => {
            add_fault(&mut text, global, name, lines.as_slice(), number, fault)?;
        }
        None => add_remark(&mut text, name, lines.as_slice(), races)?,
    }
    Ok(text)
}

/// Adds the line for the place of a fault at the line of a number, if there is such a line.
fn add_fault(
    text: &mut Vec<u8>,
    global: Global,
    name: &str,
    lines: &[&[u8]],
    number: u64,
    fault: Fault,
) -> Result<(), AllocError>
    ensures { OnOk result
        (text.new.items
        ≡ text.old.items
        ++ place_of_by name.now (map (λ line. line.now) lines.now) number fault) }
{
    if number == 0 || number > lines.len() as u64 {
        return Ok(());
    }
    add_place(text, global, name, lines, number as usize - 1, fault)
}

/// Adds the text for a trace without a fault.
fn add_remark(
    text: &mut Vec<u8>,
    name: &str,
    lines: &[&[u8]],
    races: bool,
) -> Result<(), AllocError>
    ensures { OnOk result
        (text.new.items
        ≡ text.old.items ++ remark_by name.now (map (λ line. line.now) lines.now) races) }
{
    if are_silent(lines) {
        return add_file_line(text, name, b"the trace says nothing");
    }
    if !has_booted(lines) {
        return add_file_line(text, name, b"no boot, so no step is made");
    }
    if races && !has_started(lines) {
        return add_file_line(text, name, b"no start, so all steps are made in order");
    }
    Ok(())
}

/// Adds a line of the report of a whole file.
pub fn add_file_line(text: &mut Vec<u8>, name: &str, said: &[u8]) -> Result<(), AllocError>
    ensures { OnOk result (text.new.items ≡ text.old.items ++ file_line name.now said.now) }
{
    text.extend_from_slice(name.as_bytes())?;
    text.extend_from_slice(b": ")?;
    text.extend_from_slice(said)?;
    text.extend_from_slice(b"\n")?;
    Ok(())
}

/// Whether none of these lines says anything.
fn are_silent(lines: &[&[u8]]) -> bool
    ensures { result ≡ list_all is_silent_line (map (λ line. line.now) lines.now) }
{
    for line in lines {
        if !is_silent(line) {
            return false;
        }
    }
    true
}

/// An empty line, and one that begins with `#`.
fn is_silent(line: &[u8]) -> bool
    ensures { result ≡ is_silent_line line.now }
{
    matches!(line, [] | [b'#', ..])
}

/// Whether one of these lines is `start`.
fn has_started(lines: &[&[u8]]) -> bool
    ensures { result ≡ list_any (λ line. bytes_eq line (codes "start")) (map (λ line. line.now) lines.now) }
{
    for line in lines {
        if is_name(line, b"start") {
            return true;
        }
    }
    false
}

/// The fault of a report's line, and the number of the trace's line. None of a line without a fault.
pub fn fault_reported(told: &[u8]) -> Option<(u64, Fault)>
    ensures { result ≡ fault_reported_by told.now }
{
    let words = Words::of(told);
    if !is_name(words.get(1)?, b"fault") {
        return None;
    }
    let number = decimal(words.get(0)?)?;
    let fault = fault_named(words.get(2)?, words.get(3))?;
    Some((number, fault))
}

/// The fault of a name, which for one of layout or boot has a number too.
fn fault_named(name: &[u8], number: Option<&[u8]>) -> Option<Fault>
    ensures { result ≡ fault_named_by name.now (option_copied number.entry) }
{
    match number {
        Some(number) => {
            let number = decimal(number)?;
            if is_name(name, b"layout") {
                return layout_fault(number);
            }
            if is_name(name, b"boot") {
                return boot_fault(number);
            }
            None
        }
        None => plain_fault(name),
    }
}

fn plain_fault(name: &[u8]) -> Option<Fault>
    ensures { result ≡ plain_fault_by name.now }
{
    if is_name(name, b"lines") {
        return Some(Fault::Lines);
    }
    if is_name(name, b"cpu") {
        return Some(Fault::Cpu);
    }
    if is_name(name, b"path") {
        return Some(Fault::Path);
    }
    let fault = line_fault(name)?;
    Some(Fault::Line(fault))
}

fn line_fault(name: &[u8]) -> Option<LineFault>
    ensures { result ≡ line_fault_by name.now }
{
    if is_name(name, b"long") {
        return Some(LineFault::Long);
    }
    if is_name(name, b"byte") {
        return Some(LineFault::Byte);
    }
    if is_name(name, b"space") {
        return Some(LineFault::Space);
    }
    if is_name(name, b"word") {
        return Some(LineFault::Word);
    }
    if is_name(name, b"place") {
        return Some(LineFault::Place);
    }
    if is_name(name, b"count") {
        return Some(LineFault::Count);
    }
    if is_name(name, b"form") {
        return Some(LineFault::Form);
    }
    None
}

fn layout_fault(number: u64) -> Option<Fault>
    ensures { result ≡ layout_fault_by number }
{
    match number {
        1 => Some(Fault::Layout(LayoutFault::Overlap)),
        2 => Some(Fault::Layout(LayoutFault::Empty)),
        3 => Some(Fault::Layout(LayoutFault::PastLimit)),
        4 => Some(Fault::Layout(LayoutFault::CarveOutside)),
        5 => Some(Fault::Layout(LayoutFault::TooMany)),
        6 => Some(Fault::Layout(LayoutFault::NoMemory)),
        _ => None,
    }
}

fn boot_fault(number: u64) -> Option<Fault>
    ensures { result ≡ boot_fault_by number }
{
    match number {
        1 => Some(Fault::Boot(BootFault::Config)),
        2 => Some(Fault::Boot(BootFault::CarveSmall)),
        3 => Some(Fault::Boot(BootFault::NoMemory)),
        _ => None,
    }
}
