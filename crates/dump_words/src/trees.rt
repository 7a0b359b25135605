//! Trees, and pages of them that are skipped.
ghost use Rattle.std.specs.Prelude.{◌≡◌};
ghost use Rattle.dump_words.specs.Words.{range_of, skip_of, tree_of_word};

use crate::cut::mark_at;
use image_dump::Skip;
use trace_words::{decimal, is_name, number};

/// The tree that a word names: `host`, `hyp`, or a guest by its number below 64.
pub fn tree_word(word: &[u8]) -> Option<u64>
    ensures { result ≡ tree_of_word word.now }
{
    if is_name(word, b"host") {
        return Some(0);
    }
    if is_name(word, b"hyp") {
        return Some(1);
    }
    match decimal(word) {
        Some(guest) => if guest > 63 { None } else { Some(guest + 2) },
        None => None,
    }
}

/// The pages `FIRST-LAST` of a tree.
fn range(tree: u64, word: &[u8]) -> Option<Skip>
    ensures { result ≡ range_of tree word.now }
{
    let Some(at) = mark_at(word, b'-') else {
        return None;
    };
    let Some(first) = number(&word[..at]) else {
        return None;
    };
    let Some(last) = number(&word[at + 1..]) else {
        return None;
    };
    if last < first {
        return None;
    }
    Some(Skip { tree, first, last })
}

/// The pages of a tree that a word skips: `TREE=FIRST-LAST`.
pub fn skip_word(word: &[u8]) -> Option<Skip>
    ensures { result ≡ skip_of word.now }
{
    let Some(at) = mark_at(word, b'=') else {
        return None;
    };
    let Some(tree) = tree_word(&word[..at]) else {
        return None;
    };
    range(tree, &word[at + 1..])
}
