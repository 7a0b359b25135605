//! The tables that a change of a range needs.
ghost use Rattle.std.specs.Prelude.{◌≡◌, ℕ, ◌+◌, ◌-◌, ◌*◌, ◌^◌, ◌<◌, ◌≤◌};
ghost use Rattle.coarse_trees.specs.Coarsest.{map_need};
ghost use Rattle.page_state.specs.declared.entry.Entry.TheVariants.{Unmapped};
ghost use Rattle.page_state.specs.Entries.{IsRangeEntry};
ghost use Rattle.page_state.specs.Trees.{root_tree};
ghost use Rattle.page_state.specs.Regions.{end_of};
ghost use Rattle.page_state.specs.Tables.{put, need as need_of};
ghost use Rattle.page_state.specs.Geometries.{levels_below, input_pages, block_pages};
ghost use Rattle.table_tree.specs.Meaning.{IsDepth};
ghost use Rattle.table_tree.specs.Reading.{count_of};
ghost use Rattle.table_tree.specs.Shape.{IsShaped};
ghost use Rattle.table_tree.specs.View.{meaning, tree_of};
ghost use Rattle.walk_plan.specs.Changes.{IsEncodableOn, IsChange, pages_of};
ghost use Rattle.walk_plan.specs.Hands.{FitsTree, edit_on, need_in};
ghost use Rattle.walk_plan.specs.inner.Needs.{block_need, block_parts, met, sum_to, table_need};
ghost use Rattle.walk_plan.specs.inner.Looks.{edges};

use crate::Change;
use page_state::{Entry, Geometry, PageRange};
use std::alloc::Allocator;
use table_tree::word::{entry_of, pages_before};
use table_tree::{Reads, Slot, Table, Tree};

/// The tables that a change needs in a block without a table, whose first page has the entry `old`.
fn need_of_block(depth: u32, old: Entry, change: Change) -> usize
    requires depth_in { IsDepth depth }
    requires change_in { IsChange depth change }
    requires old_in { IsRangeEntry (block_pages depth) old }
    ensures value { result ≡ block_need depth old change }
    ensures small { result + 1 ≤ 1024 ^ depth }
{
    if depth == 0 || change.is_one_word(depth, old) {
        return 0;
    }
    let below = depth - 1;
    let mut count = 1;
    for i in change.first >> (9 * below)..((change.end - 1) >> (9 * below)) + 1 {
        let entry = old.advance(pages_before(below, i));
        count += need_of_block(below, entry, change.part(below, i));
    }
    count
}

/// The tables that a change needs in a table.
fn need_of_table<A: Allocator>(
    table: &Table<A>,
    depth: u32,
    change: Change,
    reads: &mut Reads,
) -> usize
    requires depth_in { IsDepth depth }
    requires shape { IsShaped depth table.now }
    requires change_in { IsChange (depth + 1) change }
    ensures value { result ≡ table_need depth table.now change }
    ensures small { result + 1 ≤ 1024 ^ (depth + 1) }
    ensures reads { 2 * count_of reads.new + 1 ≤ 2 * count_of reads.old + 3 * pages_of change + edges
        (2 * depth) (depth + 1) change }
    ensures whole { change.first ≡ 0
        → change.end ≡ block_pages (depth + 1)
        → 2 * count_of reads.new + 512 ≤ 2 * count_of reads.old + 3 * pages_of change }
{
    let mut count = 0;
    for i in change.first >> (9 * depth)..((change.end - 1) >> (9 * depth)) + 1 {
        let part = change.part(depth, i);
        count += match table.slot(i as usize, reads) {
            Slot::Word(word) => need_of_block(depth, entry_of(depth, *word), part),
            Slot::Child(child) => {
                // a table of the last level needs none
                if depth == 1 {
                    0
                } else {
                    need_of_table(child, depth - 1, part, reads)
                }
            }
        };
    }
    count
}

/// The tables that a change of a range of a tree needs: one for each aligned block that meets the range, has no table,
/// and can't be one word afterwards. It depends only on the map: these are the blocks that can be one word before the
/// change and can't afterwards. It reads at most 6 slots and 1.5 for each page.
pub fn need<A: Allocator>(
    tree: &Tree<A>,
    range: PageRange,
    entry: &Entry,
    reads: &mut Reads,
) -> usize
    requires { FitsTree tree.now.geometry range entry.now }
    ensures value { result ≡ need_in tree.now (edit_on range entry.now) }
    ensures by_map { result
        ≡ map_need (levels_below tree.now.geometry) (meaning tree.now) (edit_on range entry.now) }
    ensures small { result ≤ 2 ^ 40 }
    ensures reads { 2 * count_of reads.new ≤ 2 * count_of reads.old + 3 * range.count + 12 }
{
    let change = Change {
        first: range.first.0,
        end: range.first.0 + range.count,
        entry: *entry,
    };
    need_of_table(&tree.table, tree.geometry().depth(), change, reads)
}

/// The tables that a change needs below a table in which nothing is mapped.
fn need_of_empty(depth: u32, change: Change) -> usize
    requires depth_in { IsDepth depth }
    requires change_in { IsChange (depth + 1) change }
    ensures { result ≡ sum_to (met depth change (block_parts depth Unmapped)) 512 }
{
    let mut count = 0;
    for i in change.first >> (9 * depth)..((change.end - 1) >> (9 * depth)) + 1 {
        count += need_of_block(depth, Entry::Unmapped, change.part(depth, i));
    }
    count
}

/// The tables that a change of a range needs in a tree that has only its root and maps nothing. It takes no memory.
pub fn need_of_new(geometry: Geometry, range: PageRange, entry: &Entry) -> usize
    requires { FitsTree geometry range entry.now }
    ensures { (root : ℕ)
        → result
        ≡ need_of (levels_below geometry) (root_tree (levels_below geometry) root)
        (edit_on range entry.now) }
{
    let change = Change {
        first: range.first.0,
        end: range.first.0 + range.count,
        entry: *entry,
    };
    need_of_empty(geometry.depth(), change)
}
