//! Words that are numbers, ranges, levels, slots, VMs, their kinds, and rights.
ghost use Rattle.std.specs.Prelude.{◌≡◌, ◌≤◌, option_copied, slice_get};
ghost use Rattle.trace_lines.specs.Arguments.{
  count_word_at,
  decimal_part as decimal_of_part,
  dotted,
  kind_word_at,
  level_word_at as level_at_place,
  number_at as number_at_place,
  one_more as one_more_by,
  range_of as range_by,
  rights_word_at,
  slot_word_at,
  vm_of,
  vm_word_at,
};

use call_table::{VmId, VmKind, rights_named, vm_kind_named};
use page_state::{Page, PageRange, Prot};
use trace_words::{Words, decimal, number};

/// The last level of a tree.
const LAST_LEVEL: u64 = 3;

/// The last slot of a guest.
const LAST_SLOT: u64 = 63;

/// The number at a place, counted from 0.
pub fn number_at(words: &Words<'_>, place: usize) -> Option<u64>
    ensures { result ≡ number_at_place words.now place }
{
    number(words.get(place)?)
}

/// The number at a place, and 1 if the line ends before it.
pub fn count_at(words: &Words<'_>, place: usize) -> Option<u64>
    ensures { result ≡ count_word_at words.now place }
{
    match words.get(place) {
        Some(word) => number(word),
        None => Some(1),
    }
}

/// 1 if the line has a word at the place, otherwise 0.
pub fn one_more(words: &Words<'_>, place: usize) -> usize
    ensures value { result ≡ one_more_by words.now place }
    ensures few { result ≤ 1 }
{
    if words.get(place).is_some() { 1 } else { 0 }
}

/// The level of a tree at a place, 0 to 3.
pub fn level_at(words: &Words<'_>, place: usize) -> Option<u64>
    ensures { result ≡ level_at_place words.now place }
{
    let level = number_at(words, place)?;
    if level > LAST_LEVEL {
        return None;
    }
    Some(level)
}

/// The slot of a guest at a place, 0 to 63.
pub fn slot_at(words: &Words<'_>, place: usize) -> Option<u64>
    ensures { result ≡ slot_word_at words.now place }
{
    let slot = number_at(words, place)?;
    if slot > LAST_SLOT {
        return None;
    }
    Some(slot)
}

/// The range that the second and third word give.
pub fn range_of(words: &Words<'_>) -> Option<PageRange>
    ensures { result ≡ range_by words.now }
{
    let first = Page(number_at(words, 1)?);
    let count = number_at(words, 2)?;
    Some(PageRange { first, count })
}

/// The part of a word at a place, counted from 0: parts are separated by one dot each.
fn part(word: &[u8], place: usize) -> Option<&[u8]>
    ensures { option_copied result ≡ slice_get (dotted word.now) place }
{
    word.split(|byte| *byte == b'.').nth(place)
}

/// The number that a part is in decimal.
fn decimal_part(word: &[u8], place: usize) -> Option<u64>
    ensures { result ≡ decimal_of_part word.now place }
{
    decimal(part(word, place)?)
}

/// The VM that a word names: its slot and its generation, joined by a dot.
#[tactic(auto, unfolding(crate::specs::Arguments::vm_of))]
fn vm(word: &[u8]) -> Option<VmId>
    ensures { result ≡ vm_of word.now }
{
    if part(word, 2).is_some() {
        return None;
    }
    let slot = decimal_part(word, 0)?;
    let generation = decimal_part(word, 1)?;
    Some(VmId { slot, generation })
}

/// The VM at a place, counted from 0.
pub fn vm_at(words: &Words<'_>, place: usize) -> Option<VmId>
    ensures { result ≡ vm_word_at words.now place }
{
    vm(words.get(place)?)
}

/// The kind of VMs at a place, counted from 0.
pub fn kind_at(words: &Words<'_>, place: usize) -> Option<VmKind>
    ensures { result ≡ kind_word_at words.now place }
{
    vm_kind_named(words.get(place)?)
}

/// The rights at a place, counted from 0.
pub fn rights_at(words: &Words<'_>, place: usize) -> Option<Prot>
    ensures { result ≡ rights_word_at words.now place }
{
    rights_named(words.get(place)?)
}
