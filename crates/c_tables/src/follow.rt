//! Pages, and how a word leads on to one.
ghost use Rattle.std.specs.Prelude.{◌≡◌, ◌≤◌, ◌^◌, ◌<◌, ◌==◌, All, IfSome, find, length};
ghost use Rattle.descriptor.specs.Word.{desc_of};
ghost use Rattle.page_state.specs.Entries.{entry_of_word};
ghost use Rattle.c_tables.specs.ByFrames.{HasSmallFrame, led_at, level_at, page_of as page_of_frame};

use descriptor::{Desc, Level, decode};
use page_state::Entry;

/// A page with a table, as it lies in memory.
#[repr(C)]
#[derive(Clone, Copy)]
pub struct PlainPage<'a> {
    /// Its frame.
    pub frame: u64,
    /// Its 512 words.
    pub words: &'a [u64],
}

/// The root table of a tree.
#[repr(C)]
#[derive(Clone, Copy, PartialEq)]
pub struct PlainRoot {
    /// 0 the host's, 1 the hypervisor's, 2 + v that of the guest in slot v.
    pub tree: u64,
    /// The frame of the root table.
    pub frame: u64,
}

/// The page of a frame.
pub(crate) fn page_of<'a>(pages: &[PlainPage<'a>], frame: u64) -> Option<PlainPage<'a>>
    ensures { result ≡ page_of_frame pages.now frame }
{
    pages.iter().copied().find(|page| page.frame == frame)
}

/// The level of a table with `depth` levels below it.
fn level_of(depth: u32) -> Level
    requires { depth ≤ 3 }
    ensures { result ≡ level_at depth }
{
    match depth {
        0 => Level::Three,
        1 => Level::Two,
        2 => Level::One,
        _ => Level::Zero,
    }
}

/// The page that a word leads on to, of a table with `depth` levels below it.
pub(crate) fn next_page<'a>(pages: &[PlainPage<'a>], depth: u32, word: u64) -> Option<PlainPage<'a>>
    requires { depth ≤ 3 }
    ensures { result ≡ led_at pages.now depth word }
{
    if depth == 0 {
        return None;
    }
    match decode(level_of(depth), word) {
        Desc::Table(frame) => page_of(pages, frame.0),
        Desc::Malformed | Desc::Unmapped | Desc::Annotated(_) | Desc::Leaf { .. } => None,
    }
}

/// What a word that doesn't lead on gives its first page.
pub(crate) fn entry_of(depth: u32, word: u64) -> Entry
    requires { depth ≤ 3 }
    ensures value { result ≡ entry_of_word (desc_of (level_at depth) word) }
    ensures small { HasSmallFrame result }
{
    Entry::from(decode(level_of(depth), word))
}
