//! What tests of ranges begin with.
ghost use Rattle.std.specs.Prelude.{◌≡◌, ℕ, ◌+◌, ◌≤◌, ◌^◌};
ghost use Rattle.page_state.specs.Entries.{IsRangeEntry};
ghost use Rattle.page_state.specs.EntryTests.{leaf as leaf_of};

use page_state::{Entry, Frame, Kind, Page, PageRange, Prot, State};

/// So many pages.
pub(crate) fn pages(first: u64, count: u64) -> PageRange
    ensures { result ≡ record { first = record { 0 = first }; count = count } }
{
    PageRange {
        first: Page(first),
        count,
    }
}

/// The entry of an owner that may do all: an RWX Normal leaf.
pub fn leaf(frame: u64, state: State) -> Entry
    ensures leaf { result ≡ leaf_of Prot.RWX frame state }
    ensures fits { (n : ℕ) → frame + n ≤ 2 ^ 36 → IsRangeEntry n result }
{
    Entry::Leaf {
        frame: Frame(frame),
        prot: Prot::RWX,
        kind: Kind::Normal,
        state,
    }
}
