//! Walks a tree from scratch: reads its words, by page.
ghost use Rattle.std.specs.Prelude.{◌≡◌, ◌+◌, ◌*◌, ◌^◌, ◌≤◌, ◌++◌, min, IfOk, OnOk};
ghost use Rattle.page_state.specs.Geometries.{levels_below, block_pages};
ghost use Rattle.table_tree.specs.Meaning.{IsDepth};
ghost use Rattle.table_tree.specs.Reading.{count_of};
ghost use Rattle.table_tree.specs.Tables.{tables_in};
ghost use Rattle.ghost_trees.specs.KeptTrees.{IsKeptTree};
ghost use Rattle.ghost_trees.specs.Trees.{tree_in_lists};
ghost use Rattle.table_tree.specs.Raw.{IsRaw};
ghost use Rattle.table_tree.specs.Roots.{tree_under};
ghost use Rattle.ghost_oracle.specs.inner.Walking.{AreRunsTo, GoesOnBy, found_under};

use crate::eight::{go_on, one_of};
use crate::pending::{nothing_pending, put_pending, take_word};
use ghost_trees::tree::{Table as FoundTable, Tree};
use page_state::{Geometry, pages_under};
use std::alloc::{AllocError, Allocator, Global};
use table_tree::{Reads, Slot, Table};

/// The tree that a root table and the tables below it say, whose words may be any. It takes memory
/// for the runs and tables that it finds alone; room for `room` runs is taken at once, so that the list isn't
/// copied as it grows if no more are found.
pub fn walk<A: Allocator>(
    alloc: Global,
    room: usize,
    geometry: Geometry,
    table: &Table<A>,
    reads: &mut Reads,
) -> Result<Tree, AllocError>
    requires raw { IsRaw (levels_below geometry) table.now }
    ensures tree { IfOk result (λ t. tree_in_lists t ≡ tree_under geometry table.now) }
    ensures kept { IfOk result IsKeptTree }
    ensures reads { OnOk result
        (count_of reads.new
        ≡ min
        (count_of reads.old + 512 * tables_in
        (levels_below geometry) table.now) 18446744073709551615) }
{
    let runs = Vec::with_capacity(alloc, room)?;
    let tables = Vec::new(alloc);
    let mut found = Tree { runs, tables };
    walk_table(table, geometry.depth(), 0, reads, &mut found)?;
    Ok(found)
}

/// Adds what a table says, and the tables below it. It has `depth` levels below it, and is at block `number` of its level.
fn walk_table<A: Allocator>(
    table: &Table<A>,
    depth: u32,
    number: u64,
    reads: &mut Reads,
    found: &mut Tree,
) -> Result<(), AllocError>
    requires depth_in { IsDepth depth }
    requires raw { IsRaw depth table.now }
    requires place { (number + 1) * block_pages (depth + 1) ≤ 2 ^ 36 }
    requires before { AreRunsTo (number * block_pages (depth + 1)) found.old.runs.items }
    ensures runs { OnOk result (AreRunsTo ((number + 1) * block_pages (depth + 1)) found.new.runs.items) }
    ensures map { OnOk result (GoesOnBy depth number table.now found.old.runs.items found.new.runs.items) }
    ensures tables { OnOk result
        (found.new.tables.items ≡ found.old.tables.items ++ found_under depth number table.now) }
    ensures reads { OnOk result
        (count_of reads.new
        ≡ min (count_of reads.old + 512 * tables_in depth table.now) 18446744073709551615) }
{
    found.tables.push(FoundTable {
        block: (depth as u64 + 1, number),
        frame: table.frame().0,
    })?;
    let pages = pages_under(depth);
    let mut pending = nothing_pending(number * 512 * pages);
    let mut from = 0usize;
    while let Some((c, slots)) = go_on(table, from, &mut pending, reads) {
        for k in 0..8usize {
            let part = number * 512 + (8 * c + k) as u64;
            match one_of(slots, k) {
                Slot::Word(word) => take_word(
                    &mut found.runs,
                    &mut pending,
                    depth,
                    pages,
                    part * pages,
                    *word,
                )?,
                Slot::Child(child) => {
                    put_pending(&mut found.runs, pending, part * pages)?;
                    walk_table(child, depth - 1, part, reads, found)?;
                    pending = nothing_pending((part + 1) * pages);
                }
            }
        }
        from = c + 1;
    }
    put_pending(&mut found.runs, pending, (number + 1) * 512 * pages)?;
    Ok(())
}
