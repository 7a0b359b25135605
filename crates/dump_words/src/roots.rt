//! Roots: `FRAME[:LEVEL[:PAGES]]`.
ghost use Rattle.std.specs.Prelude.{◌≡◌, IfSome};
ghost use Rattle.walked_tables.specs.ByFrames.{most_pages as most_pages_of};
ghost use Rattle.dump_words.specs.Words.{IsLowGuest, IsLowRoot, below_frame, depth_of, guest_of, made_of, root_of_word};

use crate::cut::mark_at;
use trace_words::{decimal, is_name, number};

/// A root: the frame of its first page, how many levels are below it, and how many pages there are.
#[derive(Clone, Copy, PartialEq, Eq, Debug)]
pub struct RootWord {
    pub frame: u64,
    pub depth: u64,
    pub pages: u64,
}

/// How many levels are below a root of the level that a word says: -1 to 3.
fn depth_word(word: &[u8]) -> Option<u64>
    ensures { result ≡ depth_of word.now }
{
    if is_name(word, b"-1") {
        return Some(4);
    }
    match decimal(word) {
        Some(level) => if level > 3 { None } else { Some(3 - level) },
        None => None,
    }
}

/// How many pages a root may have: at level -1 none are concatenated.
fn most_pages(depth: u64) -> u64
    ensures { result ≡ most_pages_of depth }
{
    if depth < 4 { 16 } else { 1 }
}

/// A root of these numbers: below frame 2^40, with at most 4 levels below it, and of as many pages as such a root may have.
fn made(frame: Option<u64>, depth: Option<u64>, pages: Option<u64>) -> Option<RootWord>
    ensures is { result ≡ made_of frame depth pages }
    ensures low { IfSome result IsLowRoot }
{
    match (frame, depth, pages) {
        (Some(frame), Some(depth), Some(pages)) => {
            if depth > 4 || pages < 1 || pages > most_pages(depth) || frame >= 1 << 40 {
                None
            } else {
                Some(RootWord {
                    frame,
                    depth,
                    pages,
                })
            }
        }
        _ => None,
    }
}

/// The root of a frame, and of what follows the first colon.
fn below(frame: Option<u64>, rest: &[u8]) -> Option<RootWord>
    ensures is { result ≡ below_frame frame rest.now }
    ensures low { IfSome result IsLowRoot }
{
    match mark_at(rest, b':') {
        None => made(frame, depth_word(rest), Some(1)),
        Some(at) => made(frame, depth_word(&rest[..at]), decimal(&rest[at + 1..])),
    }
}

/// The root that a word says. The level is 0 and the page count 1 if the word doesn't say them.
pub fn root_word(word: &[u8]) -> Option<RootWord>
    ensures is { result ≡ root_of_word word.now }
    ensures low { IfSome result IsLowRoot }
{
    match mark_at(word, b':') {
        None => made(number(word), Some(3), Some(1)),
        Some(at) => below(number(&word[..at]), &word[at + 1..]),
    }
}

/// The guest and its root that a word is: `N=ROOT`, N below 64.
pub fn guest_word(word: &[u8]) -> Option<(u64, RootWord)>
    ensures is { result ≡ guest_of word.now }
    ensures low { IfSome result IsLowGuest }
{
    let Some(at) = mark_at(word, b'=') else {
        return None;
    };
    let Some(guest) = decimal(&word[..at]) else {
        return None;
    };
    if guest > 63 {
        return None;
    }
    match root_word(&word[at + 1..]) {
        Some(root) => Some((guest, root)),
        None => None,
    }
}
