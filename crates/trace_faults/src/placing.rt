//! Where the fault of a trace is.
ghost use Rattle.std.specs.Prelude.{◌≡◌, ◌<◌, [], ◌++◌, IfOk, OnOk, length, map, slice_index_or, take};
ghost use Rattle.trace_faults.specs.Spots.{boot_spot as boot_spot_by, cpus_word as cpus_word_by, first_word as first_word_by, has_booted as has_booted_by, page_place as page_place_by, place_line, spot_in, spot_of};

use crate::blame::{blamed, blamed_wanted, unblamed_found, unblamed_wanted};
use crate::line::line_spot;
use crate::saying::{Spot, add_spot, at, at_word, of_line, with_fault};
use std::alloc::{AllocError, Global};
use trace_text::Fault;
use trace_words::{Words, is_name};

/// Adds a line for the place of the fault of the line at a place, counted from 0, by the lines of its trace up to it:
/// `NAME:LINE:COLUMN: fault FAULT: found .., wanted ..`.
pub fn add_place(
    text: &mut Vec<u8>,
    global: Global,
    name: &str,
    lines: &[&[u8]],
    place: usize,
    fault: Fault,
) -> Result<(), AllocError>
    requires { place < length lines.now }
    ensures { OnOk result
        (text.new.items
        ≡ text.old.items
        ++ place_line name.now (map (λ line. line.now) lines.now) place fault) }
{
    let spot = spot(global, lines, place, fault)?;
    let named = with_fault(global, fault, &spot)?;
    add_spot(text, global, name, &named)
}

/// Where the fault of the line at a place is, what was found there and what was expected, by the lines of its trace up
/// to it. For a refused boot it is the setting that the fault blames.
#[tactic(auto, unfolding(crate::specs::Spots::spot_of))]
fn spot(global: Global, lines: &[&[u8]], place: usize, fault: Fault) -> Result<Spot, AllocError>
    requires { place < length lines.now }
    ensures { IfOk result (λ spot. spot_in spot ≡ spot_of (map (λ line. line.now) lines.now) place fault) }
{
    let number = place as u64 + 1;
    let line = line_at(lines, place);
    match fault {
        Fault::Lines => at(
            global,
            number,
            1,
            b"one more line",
            b"1048576 lines at most",
        ),
        Fault::Line(fault) => line_spot(global, number, line, fault, booted_before(lines, place)),
        Fault::Cpu => {
            let mut wanted = Vec::from_slice(global, b"a CPU below ")?;
            wanted.extend_from_slice(cpus_before(lines, place))?;
            at_word(global, number, line, 0, wanted.as_slice())
        }
        Fault::Layout(_) | Fault::Boot(_) => boot_spot(global, lines, place, fault),
        Fault::Path => at_word(
            global,
            number,
            line,
            page_place(line),
            b"a word that the tree has",
        ),
    }
}

/// Where a refused boot is at fault.
#[tactic(auto, using(crate::proofs::Before::lines_before))]
fn boot_spot(
    global: Global,
    lines: &[&[u8]],
    place: usize,
    fault: Fault,
) -> Result<Spot, AllocError>
    requires { place < length lines.now }
    ensures { IfOk result
        (λ spot. spot_in spot ≡ boot_spot_by (map (λ line. line.now) lines.now) place fault) }
{
    match blamed(&lines[..place], fault) {
        Some(at_fault) => {
            let line = line_at(lines, at_fault);
            let wanted = blamed_wanted(fault, first_word(line));
            of_line(global, at_fault as u64 + 1, line, wanted)
        }
        None => at(
            global,
            place as u64 + 1,
            1,
            unblamed_found(fault),
            unblamed_wanted(fault),
        ),
    }
}

/// The line at a place.
fn line_at<'a>(lines: &[&'a [u8]], place: usize) -> &'a [u8]
    requires { place < length lines.now }
    ensures { result.now ≡ slice_index_or (map (λ line. line.now) lines.now) place [] }
{
    lines[place]
}

/// Whether a line before a place is `boot`.
#[tactic(auto, using(crate::proofs::Before::lines_before))]
fn booted_before(lines: &[&[u8]], place: usize) -> bool
    requires { place < length lines.now }
    ensures { result ≡ has_booted_by (take place (map (λ line. line.now) lines.now)) }
{
    has_booted(&lines[..place])
}

/// The number of CPUs that the lines before a place set, as it is written.
#[tactic(auto, using(crate::proofs::Before::lines_before))]
fn cpus_before<'a>(lines: &[&'a [u8]], place: usize) -> &'a [u8]
    requires { place < length lines.now }
    ensures { result.now ≡ cpus_word_by (take place (map (λ line. line.now) lines.now)) }
{
    cpus_word(&lines[..place])
}

/// Whether one of these lines is `boot`.
pub(crate) fn has_booted(lines: &[&[u8]]) -> bool
    ensures { result ≡ has_booted_by (map (λ line. line.now) lines.now) }
{
    for line in lines {
        if is_name(line, b"boot") {
            return true;
        }
    }
    false
}

fn first_word(line: &[u8]) -> &[u8]
    ensures { result.now ≡ first_word_by line.now }
{
    Words::of(line).get(0).unwrap_or(b"")
}

/// The number of CPUs that these lines set, as it is written.
fn cpus_word<'a>(lines: &[&'a [u8]]) -> &'a [u8]
    ensures { result.now ≡ cpus_word_by (map (λ line. line.now) lines.now) }
{
    for line in lines {
        let line: &'a [u8] = line;
        if is_name(first_word(line), b"cpus") {
            return Words::of(line).get(1).unwrap_or(b"");
        }
    }
    b"1"
}

/// The place of the page in a line on a path.
fn page_place(line: &[u8]) -> usize
    ensures { result ≡ page_place_by line.now }
{
    let tree = Words::of(line).get(1).unwrap_or(b"");
    if is_name(tree, b"guest") { 3 } else { 2 }
}
