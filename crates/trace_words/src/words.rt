//! The words of a line.
ghost use Rattle.std.specs.Prelude.{◌≡◌, length, slice_get, option_copied};
ghost use Rattle.std.specs.Str.{bytes_eq};
ghost use Rattle.trace_words.specs.Words.{has_empty_word, has_stray_byte as has_stray_byte_in, words_of};

use arrayvec::ArrayVec;
use std::marker::Model;

/// How many words of a line are kept. Later ones are looked up in the line.
const MOST_KEPT: usize = 8;

/// A line as words, which are separated by one space each.
#[derive(Drop)]
pub struct Words<'a> {
    line: &'a [u8],
    kept: ArrayVec<&'a [u8], 8>,
    count: usize,
    has_empty: bool,
}

impl<'a> Model for Words<'a> {
    ghost use Rattle.std.specs.Prelude.{ℕ, List};
    ghost use Rattle.trace_words.specs.Words.{words_of, AreKept};

    ghost Value = { List (List ℕ) };

    ghost view = { λ words. words_of words.line.now };

    ghost invariant = { λ words. AreKept (λ word. word.now) words.kept.items words.count words.has_empty
        (words_of words.line.now) };
}

impl<'a> Words<'a> {
    /// The words of a line, which is gone through once.
    pub fn of(line: &'a [u8]) -> Words<'a>
        ensures { result ≡ words_of line.now }
    {
        let mut kept = ArrayVec::new();
        let mut count = 0;
        let mut has_empty = false;
        for word in line.split(|byte| *byte == b' ') {
            if count < MOST_KEPT {
                kept.push(word);
            }
            count += 1;
            has_empty = has_empty || word.is_empty();
        }
        Words {
            line,
            kept,
            count,
            has_empty,
        }
    }

    /// How many words there are.
    pub fn count(&self) -> usize
        ensures { result ≡ length self.now }
    {
        self.count
    }

    /// Whether the line has a space first, last, or twice in a row: a word has no byte then.
    pub fn has_empty(&self) -> bool
        ensures { result ≡ has_empty_word self.now }
    {
        self.has_empty
    }

    /// The word at a place, counted from 0.
    pub fn get(&self, place: usize) -> Option<&'a [u8]>
        ensures { option_copied result ≡ slice_get self.now place }
    {
        let kept = self.kept.as_slice();
        if place < kept.len() {
            Some(kept[place])
        } else {
            self.line.split(|byte| *byte == b' ').nth(place)
        }
    }
}

/// Whether a word is this name.
pub fn is_name(word: &[u8], name: &[u8]) -> bool
    ensures { result ≡ bytes_eq word.now name.now }
{
    word == name
}

/// Whether a line has a byte outside 0x20 to 0x7e.
pub fn has_stray_byte(line: &[u8]) -> bool
    ensures { result ≡ has_stray_byte_in line.now }
{
    let mut has_stray = false;
    // without an early end, so that many bytes are looked at in one step
    for byte in line {
        let is_stray = *byte < 0x20 || *byte > 0x7e;
        has_stray |= is_stray;
    }
    has_stray
}
