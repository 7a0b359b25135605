//! Indices, and the entries that words give pages.
ghost use Rattle.std.specs.Prelude.{◌≡◌, ℕ, ◌+◌, ◌*◌, ◌^◌, ◌<◌};
ghost use Rattle.descriptor.specs.Word.{desc_of, IsEncodable};
ghost use Rattle.page_state.specs.Entries.{advance, entry_of_word, word_of_entry};
ghost use Rattle.page_state.specs.Geometries.{block_pages};
ghost use Rattle.table_tree.specs.Meaning.{IsDepth, level_at, index_at, word_entry};
ghost use Rattle.table_tree.specs.Shape.{IsEntryWord, HasSmallFrame};

use descriptor::{Desc, Level, decode, encode};
use page_state::{Entry, pages_under};

/// The level of a table with `depth` levels below it.
pub(crate) fn level_of(depth: u32) -> Level
    requires { IsDepth depth }
    ensures { result ≡ level_at depth }
{
    match depth {
        0 => Level::Three,
        1 => Level::Two,
        2 => Level::One,
        _ => Level::Zero,
    }
}

/// The index of a page in a table with `depth` levels below it.
pub(crate) fn index_of(depth: u32, page: u64) -> usize
    requires { IsDepth depth }
    ensures value { result ≡ index_at depth page }
    ensures within { result < 512 }
{
    ((page >> (9 * depth)) % 512) as usize
}

/// The entry that a word gives the first page of its block.
pub fn entry_of(depth: u32, word: u64) -> Entry
    requires { IsDepth depth }
    ensures value { result ≡ entry_of_word (desc_of (level_at depth) word) }
    ensures said { IsEntryWord depth word → IsEncodable (level_at depth) (word_of_entry result) }
    ensures small { HasSmallFrame result }
{
    Entry::from(decode(level_of(depth), word))
}

/// The entry that a word gives a page of its block.
pub(crate) fn entry_in(depth: u32, word: u64, page: u64) -> Entry
    requires { IsDepth depth }
    ensures { result ≡ word_entry depth page word }
{
    entry_of(depth, word).advance(page % (1 << (9 * depth)))
}

/// The word that encodes an entry at a level, if the level can encode it.
pub fn word_of(depth: u32, entry: Entry) -> u64
    requires depth_in { IsDepth depth }
    requires said { IsEncodable (level_at depth) (word_of_entry entry) }
    ensures entry { IsEntryWord depth result }
    ensures value { entry_of_word (desc_of (level_at depth) result) ≡ entry }
{
    encode(level_of(depth), &Desc::from(entry)).unwrap()
}

/// The pages before part `i` of a block, whose parts have `depth` levels below them.
pub fn pages_before(depth: u32, i: u64) -> u64
    requires depth_in { IsDepth depth }
    requires index_in { i < 512 }
    ensures value { result ≡ i * block_pages depth }
    ensures small { result < 2 ^ 36 }
{
    i * pages_under(depth)
}
