//! Looks at a tree, by recursion on the levels below a table.
ghost use Rattle.std.specs.Prelude.{◌≡◌, ℕ, ◌+◌, ◌-◌, ◌*◌, ◌%◌, ◌^◌, ◌<◌, ◌≤◌, ◌==◌, ◌&&◌, ◌↔◌, IsTrue, nat_lt, List, ◌++◌, map, length, take, drop, slice_index_or, OnOk, if◌then◌else◌, Option, Some};
ghost use Rattle.descriptor.specs.Word.{IsEncodable};
ghost use Rattle.page_state.specs.Entries.{advance, word_of_entry};
ghost use Rattle.page_state.specs.Geometries.{block_pages};
ghost use Rattle.page_state.specs.Counts.{frame_count};
ghost use Rattle.table_tree.specs.Bare.{IsBare};
ghost use Rattle.table_tree.specs.Tight.{IsTight};
ghost use Rattle.table_tree.specs.Meaning.{IsDepth, level_at, word_entry, entry_at, word_at, slot_word, slot_at, slots_of, frame_of};
ghost use Rattle.table_tree.specs.Shape.{IsWide, IsShaped, IsBlank, IsEntryWord, HoldsWord};
ghost use Rattle.table_tree.specs.Tables.{tables_in, uses_in, all_frames_in, table_in, frame_times};
ghost use Rattle.table_tree.specs.Raw.{IsRaw};
ghost use Rattle.table_tree.specs.Slots.{fresh};
ghost use Rattle.table_tree.specs.Stocks.{frames_of};

use crate::word::{entry_in, index_of};
use crate::{Slot, Table};
use descriptor::Frame;
use page_state::Entry;
use std::alloc::{AllocError, Allocator};

pub(crate) fn look_in<A: Allocator>(table: &Table<A>, depth: u32, page: u64) -> Entry
    requires depth_in { IsDepth depth }
    requires raw { IsRaw depth table.now }
    ensures { result ≡ entry_at depth table.now page }
{
    let mut table = table;
    let mut depth = depth;
    loop {
        match table.read(index_of(depth, page)) {
            Slot::Word(word) => return entry_in(depth, *word, page),
            Slot::Child(child) => {
                table = child;
                depth -= 1;
            }
        }
    }
}

/// The word of a slot; a child's is the table word of its frame.
pub(crate) fn word_in_slot<A: Allocator>(slot: &Slot<A>) -> u64
    ensures { result ≡ slot_word slot.now }
{
    match slot {
        Slot::Word(word) => *word,
        Slot::Child(child) => child.frame().0 % (1 << 36) * 4096 + 3,
    }
}

/// The word at a path of indices.
pub(crate) fn word_in<A: Allocator>(table: &Table<A>, depth: u32, path: &[u16]) -> Option<u64>
    requires depth_in { IsDepth depth }
    requires raw { IsRaw depth table.now }
    ensures { result ≡ word_at table.now path.now }
{
    if path.is_empty() || path[0] >= 512 {
        return None;
    }
    let i = path[0];
    let slot = table.read(i as usize);
    if path.len() == 1 {
        return Some(word_in_slot(slot));
    }
    match slot {
        Slot::Word(_) => None,
        Slot::Child(child) => word_in(child, depth - 1, &path[1..]),
    }
}

/// The number of tables, the table itself among them.
pub(crate) fn count_in<A: Allocator>(table: &Table<A>, depth: u32) -> usize
    requires depth_in { IsDepth depth }
    requires shape { IsShaped depth table.now }
    ensures value { result ≡ tables_in depth table.now }
    ensures small { result ≤ 1024 ^ depth }
{
    let mut count = 1;
    if depth == 0 {
        return count;
    }
    for i in 0..512usize {
        if let Slot::Child(child) = table.read(i) {
            count += count_in(child, depth - 1);
        }
    }
    count
}

/// Appends the frames of the tables, the table itself first.
pub(crate) fn frames_in<A: Allocator>(
    table: &Table<A>,
    depth: u32,
    frames: &mut Vec<Frame>,
) -> Result<(), AllocError>
    requires depth_in { IsDepth depth }
    requires shape { IsShaped depth table.now }
    ensures count { OnOk result
        ((f : ℕ)
        → frame_times f frames.new.items
        ≡ frame_times f frames.old.items + uses_in depth table.now f) }
    ensures len { OnOk result (length frames.new.items ≡ length frames.old.items + tables_in depth table.now) }
    ensures frames { OnOk result
        (map (λ f. f.0) frames.new.items
        ≡ map (λ f. f.0) frames.old.items ++ all_frames_in depth table.now) }
{
    frames.push(table.frame())?;
    if depth == 0 {
        return Ok(());
    }
    for i in 0..512usize {
        if let Slot::Child(child) = table.read(i) {
            frames_in(child, depth - 1, frames)?;
        }
    }
    Ok(())
}

/// Whether nothing is mapped on the block of a depth that holds a page, by one look at each table on the way: a table that
/// is at the block isn't empty.
pub(crate) fn is_empty_in<A: Allocator>(table: &Table<A>, top: u32, depth: u32, page: u64) -> bool
    requires depth_in { IsDepth top }
    requires within { depth ≤ top }
    requires shape { IsShaped top table.now }
    requires tight { IsTight top table.now }
    ensures { IsTrue result ↔ IsBare top table.now depth page }
{
    match table.read(index_of(top, page)) {
        Slot::Word(word) => *word == 0,
        Slot::Child(child) => {
            if top == depth {
                return false;
            }
            is_empty_in(child, top - 1, depth, page)
        }
    }
}
