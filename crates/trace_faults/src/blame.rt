//! The settings that a refused boot blames.
ghost use Rattle.std.specs.Prelude.{◌≡◌, ◌<◌, [], IfSome, length, map};
ghost use Rattle.trace_faults.specs.Blame.{
  blamed as blamed_by,
  begins as begins_by,
  blamed_wanted as blamed_wanted_by,
  config_wanted as config_wanted_by,
  has_no_page as has_no_page_by,
  is_before_end as is_before_end_by,
  is_blamed as is_blamed_by,
  is_carve as is_carve_by,
  is_other_config as is_other_config_by,
  is_past_limit as is_past_limit_by,
  is_region as is_region_by,
  meets as meets_by,
  meets_one as meets_one_by,
  number_of_word,
  regions_in,
  unblamed_found as unblamed_found_by,
  unblamed_wanted as unblamed_wanted_by,
};

use page_state::LayoutFault;
use trace_text::Fault;
use trace_words::{Words, is_name, number};
use world::BootFault;

/// The pages of memory and devices end here.
const PAGE_LIMIT: u64 = 0x400_0000;

/// The most regions.
const MOST_REGIONS: usize = 16;

/// The place of the first line that a fault of the boot blames.
pub(crate) fn blamed(lines: &[&[u8]], fault: Fault) -> Option<usize>
    ensures value { result ≡ blamed_by fault [] (map (λ line. line.now) lines.now) }
    ensures low { IfSome result (λ place. place < length lines.now) }
{
    for (place, line) in lines.iter().enumerate() {
        if is_blamed(fault, &lines[..place], line) {
            return Some(place);
        }
    }
    None
}

/// Whether a fault of the boot blames a line, by those before it.
fn is_blamed(fault: Fault, earlier: &[&[u8]], line: &[u8]) -> bool
    ensures { result ≡ is_blamed_by fault (map (λ line. line.now) earlier.now) line.now }
{
    match fault {
        Fault::Layout(LayoutFault::TooMany) => is_region(line) && regions(earlier) == MOST_REGIONS,
        Fault::Layout(LayoutFault::Empty) => has_no_page(line),
        Fault::Layout(LayoutFault::PastLimit) => is_past_limit(line),
        Fault::Layout(LayoutFault::Overlap) => meets_one(earlier, line),
        Fault::Layout(LayoutFault::CarveOutside) => is_carve(line),
        Fault::Boot(BootFault::Config) => is_other_config(line),
        Fault::Boot(BootFault::CarveSmall) => is_carve(line),
        _ => false,
    }
}

/// The number that the word at a place of a line is.
fn number_of(line: &[u8], place: usize) -> Option<u64>
    ensures { result ≡ number_of_word line.now place }
{
    number(Words::of(line).get(place)?)
}

fn begins(line: &[u8], name: &[u8]) -> bool
    ensures { result ≡ begins_by line.now name.now }
{
    match Words::of(line).get(0) {
        Some(first) => is_name(first, name),
        None => false,
    }
}

fn is_region(line: &[u8]) -> bool
    ensures { result ≡ is_region_by line.now }
{
    begins(line, b"memory") || begins(line, b"device")
}

fn is_carve(line: &[u8]) -> bool
    ensures { result ≡ is_carve_by line.now }
{
    begins(line, b"carve")
}

/// The number of these lines that are regions.
fn regions(lines: &[&[u8]]) -> usize
    ensures { result ≡ regions_in (map (λ line. line.now) lines.now) }
{
    lines.iter().filter(|line| is_region(line)).count()
}

/// A range without a page.
fn has_no_page(line: &[u8]) -> bool
    ensures { result ≡ has_no_page_by line.now }
{
    (is_region(line) || is_carve(line)) && number_of(line, 2) == Some(0)
}

/// A region that ends past the limit.
fn is_past_limit(line: &[u8]) -> bool
    ensures { result ≡ is_past_limit_by line.now }
{
    let first = number_of(line, 1).unwrap_or(0);
    let count = number_of(line, 2).unwrap_or(0);
    is_region(line) && (first > PAGE_LIMIT || count > PAGE_LIMIT - first)
}

/// Whether two lines are regions that share a page.
fn meets(one: &[u8], other: &[u8]) -> bool
    ensures { result ≡ meets_by one.now other.now }
{
    is_region(one) && is_region(other) && is_before_end(one, other) && is_before_end(other, one)
}

/// Whether the range of a line begins before that of another ends.
fn is_before_end(one: &[u8], other: &[u8]) -> bool
    ensures { result ≡ is_before_end_by one.now other.now }
{
    let first = number_of(one, 1).unwrap_or(0);
    let start = number_of(other, 1).unwrap_or(0);
    let count = number_of(other, 2).unwrap_or(0);
    first < start || first - start < count
}

/// Whether a line is a region that shares a page with one before it.
fn meets_one(earlier: &[&[u8]], line: &[u8]) -> bool
    ensures { result ≡ meets_one_by (map (λ line. line.now) earlier.now) line.now }
{
    for other in earlier {
        if meets(other, line) {
            return true;
        }
    }
    false
}

/// Whether a line sets a number that no machine can have.
fn is_other_config(line: &[u8]) -> bool
    ensures { result ≡ is_other_config_by line.now }
{
    let value = number_of(line, 1).unwrap_or(0);
    if begins(line, b"geometry") {
        return value != 39 && value != 48;
    }
    if begins(line, b"cpus") {
        return value == 0 || value > 64;
    }
    begins(line, b"log") && (value == 0 || value > 0x10_0000)
}

/// The expected form of a setting that is blamed, by its first word.
pub(crate) fn blamed_wanted(fault: Fault, first: &[u8]) -> &'static [u8]
    ensures { result.now ≡ blamed_wanted_by fault first.now }
{
    match fault {
        Fault::Layout(LayoutFault::TooMany) => b"16 regions at most",
        Fault::Layout(LayoutFault::Empty) => b"a page or more",
        Fault::Layout(LayoutFault::PastLimit) => b"an end of 0x4000000 at most",
        Fault::Layout(LayoutFault::Overlap) => b"no page of a region before it",
        Fault::Layout(LayoutFault::CarveOutside) => b"pages of one memory region",
        Fault::Boot(BootFault::CarveSmall) => b"a frame for each table of the boot",
        _ => config_wanted(first),
    }
}

fn config_wanted(first: &[u8]) -> &'static [u8]
    ensures { result.now ≡ config_wanted_by first.now }
{
    if is_name(first, b"geometry") {
        return b"39 or 48";
    }
    if is_name(first, b"cpus") {
        return b"1 to 64";
    }
    b"1 to 1048576"
}

/// The words for what a boot has too much of, or lacks, when its fault blames no line.
pub(crate) fn unblamed_found(fault: Fault) -> &'static [u8]
    ensures { result.now ≡ unblamed_found_by fault }
{
    match fault {
        Fault::Layout(LayoutFault::PastLimit) => b"more pages of memory",
        Fault::Layout(LayoutFault::NoMemory) | Fault::Boot(BootFault::NoMemory) => {
            b"too little memory"
        }
        _ => b"other settings",
    }
}

/// What the boot of such a fault expected.
pub(crate) fn unblamed_wanted(fault: Fault) -> &'static [u8]
    ensures { result.now ≡ unblamed_wanted_by fault }
{
    match fault {
        Fault::Layout(LayoutFault::PastLimit) => b"524288 at most",
        Fault::Layout(LayoutFault::NoMemory) => b"memory for the layout",
        Fault::Boot(BootFault::NoMemory) => b"memory for tables, rows and logs",
        _ => b"those of a machine",
    }
}
