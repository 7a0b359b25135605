//! A change of a table, slot by slot.
ghost use Rattle.std.specs.Prelude.{◌+◌, ◌*◌, ◌<◌, ◌≤◌, length};
ghost use Rattle.table_tree.specs.Meaning.{IsDepth, slot_at};
ghost use Rattle.table_tree.specs.Reading.{count_of};
ghost use Rattle.table_tree.specs.Shape.{IsShaped};
ghost use Rattle.table_tree.specs.Stocks.{frames_of};
ghost use Rattle.table_tree.specs.Tight.{IsTight};
ghost use Rattle.walk_plan.specs.Changes.{IsChange, pages_of};
ghost use Rattle.walk_plan.specs.inner.Needs.{slot_need, table_need};
ghost use Rattle.walk_plan.specs.inner.Looks.{edges};
ghost use Rattle.walker.specs.inner.Walks.{IsSlotChanged, IsSlotFreed, IsTableChanged, IsTableFreed, IsWholeLook};

use crate::open::{Found, look_for, opened, put_back};
use std::alloc::Allocator;
use table_tree::{Reads, Stock, Table};
use walk_plan::Change;

/// The state of a walk: the tables to take, the tables that it removed, and the number of slots that it read.
pub(crate) struct Walk<A: Allocator> {
    pub(crate) spare: Stock<A>,
    pub(crate) freed: Stock<A>,
    pub(crate) reads: Reads,
}

/// Makes a change in one slot.
#[cycle(walk)]
fn set_slot<A: Allocator>(
    table: &mut Table<A>,
    depth: u32,
    i: usize,
    change: Change,
    walk: &mut Walk<A>,
)
    requires depth_in { IsDepth depth }
    requires index_in { i < 512 }
    requires shape { IsShaped depth table.old }
    requires tight { IsTight depth table.old }
    requires change_in { IsChange depth change }
    requires enough { slot_need depth (slot_at table.old i) change ≤ length (frames_of walk.old.spare) }
    ensures changed { IsSlotChanged depth i table.old table.new change (frames_of walk.old.spare)
        (frames_of walk.new.spare) }
    ensures freed { IsSlotFreed depth i table.old table.new change (frames_of walk.old.freed)
        (frames_of walk.new.freed) }
    ensures reads { 2 * count_of walk.new.reads + 3 ≤ 2 * count_of walk.old.reads + 5 * pages_of change + edges
        (1028 * depth) depth change }
{
    let first = match look_for(table, depth, i, change, &mut walk.reads) {
        Found::Word(word) => {
            table.put(i, word);
            return;
        }
        Found::Opening(first) => first,
    };
    let mut child = opened(table, depth - 1, i, first, &mut walk.spare);
    set_all(&mut child, depth - 1, change, walk);
    put_back(table, depth - 1, i, child, &mut walk.freed, &mut walk.reads);
}

/// Makes a change in a table.
#[cycle(walk)]
pub(crate) fn set_all<A: Allocator>(
    table: &mut Table<A>,
    depth: u32,
    change: Change,
    walk: &mut Walk<A>,
)
    requires depth_in { IsDepth depth }
    requires shape { IsShaped depth table.old }
    requires tight { IsTight depth table.old }
    requires change_in { IsChange (depth + 1) change }
    requires enough { table_need depth table.old change ≤ length (frames_of walk.old.spare) }
    ensures changed { IsTableChanged depth table.old table.new change (frames_of walk.old.spare)
        (frames_of walk.new.spare) }
    ensures freed { IsTableFreed depth table.old table.new change (frames_of walk.old.freed)
        (frames_of walk.new.freed) }
    ensures reads { 2 * count_of walk.new.reads + 3 ≤ 2 * count_of walk.old.reads + 5 * pages_of change + edges
        (1028 * depth) (depth + 1) change }
    ensures whole { IsWholeLook depth change (count_of walk.old.reads) (count_of walk.new.reads) }
{
    for i in change.first >> (9 * depth)..((change.end - 1) >> (9 * depth)) + 1 {
        let part = change.part(depth, i);
        set_slot(table, depth, i as usize, part, walk);
    }
}
