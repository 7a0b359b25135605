//! Pages, how a word leads on to one, and what one that doesn't gives.
ghost use Rattle.std.specs.Prelude.{◌≡◌, ◌≤◌, ◌<◌, ◌==◌, ◌^◌, IfSome, find};
ghost use Rattle.page_state.specs.Geometries.{block_pages};
ghost use Rattle.table_words.specs.Decoding.{decoded_of};
ghost use Rattle.walked_tables.specs.Values.{HasSmallFrame, value_of};
ghost use Rattle.walked_tables.specs.ByFrames.{led_at, level_at, page_of, slots_at};

use crate::said::Said;
use descriptor::Level;
use table_words::{Decoded, Profile, decode};

/// A page with a table, as it lies in memory.
#[repr(C)]
#[derive(Clone, Copy)]
pub struct TablePage<'a> {
    /// Its frame.
    pub frame: u64,
    /// Its 512 words.
    pub words: &'a [u64],
}

/// The page of a frame.
pub(crate) fn page_of_frame<'a>(pages: &[TablePage<'a>], frame: u64) -> Option<TablePage<'a>>
    ensures { result ≡ page_of pages.now frame }
{
    pages.iter().copied().find(|page| page.frame == frame)
}

/// How many words of a table with `depth` levels below it addresses reach.
pub(crate) fn slots_in(depth: u32) -> usize
    requires { depth ≤ 4 }
    ensures is { result ≡ slots_at depth }
    ensures few { result ≤ 512 }
{
    if depth < 4 { 512 } else { 16 }
}

/// The pages under a word of such a table.
pub(crate) fn word_pages(depth: u32) -> u64
    requires { depth ≤ 4 }
    ensures value { result ≡ block_pages depth }
    ensures some { 0 < result }
    ensures small { result ≤ 2 ^ 36 }
{
    match depth {
        0 => 1,
        1 => 512,
        2 => 262_144,
        3 => 134_217_728,
        _ => 68_719_476_736,
    }
}

/// The level of a table with `depth` levels below it. At level -1 words say what they do at level 0.
fn level_of(depth: u32) -> Level
    requires { depth ≤ 4 }
    ensures { result ≡ level_at depth }
{
    match depth {
        0 => Level::Three,
        1 => Level::Two,
        2 => Level::One,
        _ => Level::Zero,
    }
}

/// The page that a word leads on to, of a table with `depth` levels below it.
pub(crate) fn next_page<'a>(
    profile: &Profile,
    pages: &[TablePage<'a>],
    depth: u32,
    word: u64,
) -> Option<TablePage<'a>>
    requires { depth ≤ 4 }
    ensures { result ≡ led_at profile.now pages.now depth word }
{
    if depth == 0 {
        return None;
    }
    match decode(profile, level_of(depth), word) {
        Decoded::Table(frame) => page_of_frame(pages, frame.0),
        Decoded::Malformed
        | Decoded::Unmapped
        | Decoded::Annotated { .. }
        | Decoded::Poisoned
        | Decoded::Locked
        | Decoded::Cleared(_)
        | Decoded::Leaf(_) => None,
    }
}

/// What a word that doesn't lead on gives its first page.
pub(crate) fn value_at(profile: &Profile, depth: u32, word: u64) -> Option<Said>
    requires { depth ≤ 4 }
    ensures value { result ≡ value_of (decoded_of profile.now (level_at depth) word) }
    ensures small { IfSome result HasSmallFrame }
{
    match decode(profile, level_of(depth), word) {
        Decoded::Unmapped => None,
        decoded => Some(Said(decoded)),
    }
}
