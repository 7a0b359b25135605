//! A change of some pages of a block, and its parts.
ghost use Rattle.std.specs.Prelude.{◌≡◌, ◌<◌};
ghost use Rattle.page_state.specs.Geometries.{block_pages};
ghost use Rattle.table_tree.specs.Meaning.{IsDepth};
ghost use Rattle.table_tree.specs.Shape.{HasSmallFrame};
ghost use Rattle.walk_plan.specs.Changes.{IsChange, part, is_whole, stays_one_word};

use page_state::Entry;

/// The pages from `first` to before `end`, counted from the first page of a block, get entries that begin with `entry`.
#[derive(Clone, Copy)]
pub struct Change {
    pub first: u64,
    pub end: u64,
    pub entry: Entry,
}

impl Change {
    /// The change restricted to part `i` of its block, whose parts have `depth` levels below them. Pages count from the
    /// part's first.
    pub fn part(self, depth: u32, i: u64) -> Change
        requires depth_in { IsDepth depth }
        requires within { i < 512 }
        requires entry { HasSmallFrame self.entry }
        ensures { result ≡ part depth i self }
    {
        let size = 1 << (9 * depth);
        let start = i * size;
        Change {
            first: self.first.saturating_sub(start),
            end: self.end.saturating_sub(start).min(size),
            entry: self.entry.advance(start.saturating_sub(self.first)),
        }
    }

    /// Whether the change is of a whole block, to an entry that one word can encode.
    pub fn is_whole(self, depth: u32) -> bool
        requires { IsDepth depth }
        ensures { result ≡ is_whole depth self }
    {
        self.first == 0 && self.end == 1 << (9 * depth) && self.entry.fits_word(depth)
    }

    /// Whether a block without a table, whose first page has the entry `old`, is one word after the change.
    pub fn is_one_word(self, depth: u32, old: Entry) -> bool
        requires depth_in { IsDepth depth }
        requires change_in { IsChange depth self }
        requires small { HasSmallFrame old }
        ensures { result ≡ stays_one_word depth old self }
    {
        self.is_whole(depth) || old.advance(self.first) == self.entry
    }
}
