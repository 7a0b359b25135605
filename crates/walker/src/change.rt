//! A change of a range of a tree: with tables in hand, or with tables taken for it.
ghost use Rattle.std.specs.Prelude.{◌≡◌, ◌+◌, ◌*◌, ◌<◌, ◌≤◌, ◌↔◌, [], Err, length, IfErr, OnOk, OnErr};
ghost use Rattle.coarse_trees.specs.Coarsest.{IsCanonical, map_need};
ghost use Rattle.hyp_pool.specs.declared.PoolFault.TheVariants.{NoPool};
ghost use Rattle.page_state.specs.Geometries.{levels_below};
ghost use Rattle.table_tree.specs.Reading.{count_of};
ghost use Rattle.table_tree.specs.Stocks.{frames_of};
ghost use Rattle.table_tree.specs.View.{meaning, tree_of};
ghost use Rattle.walk_plan.specs.Hands.{AreApart, FitsTree, IsChanged, IsEdited, IsRefused, KeepsFrames, Stays, edit_on, need_in};

use crate::walk::{Walk, set_all};
use hyp_pool::{Pool, PoolFault, laws};
use page_state::{Entry, PageRange};
use std::alloc::Allocator;
use std::mem;
use table_tree::{Reads, Stock, Tree};
use walk_plan::{Change, Spare, drain, reserve};

/// Gives the pages of a range an entry, which advances along the range, with the tables reserved for exactly this
/// change. It can't fail. At the end the frames of removed tables go back to the pool, and the tables to the tree's
/// spares.
pub fn set_with<A: Allocator>(
    tree: &mut Tree<A>,
    pool: &mut Pool,
    range: PageRange,
    entry: Entry,
    spare: Spare<A>,
    reads: &mut Reads,
)
    requires fits { FitsTree tree.old.geometry range entry }
    requires just { length (frames_of spare.stock) ≡ need_in tree.old (edit_on range entry) }
    requires apart { AreApart tree.old (frames_of spare.stock) pool.old }
    ensures edited { IsEdited (edit_on range entry) (frames_of spare.stock) tree.old pool.old tree.new pool.new }
    ensures reads { 2 * count_of reads.new ≤ 2 * count_of reads.old + 5 * range.count + 6168 }
{
    laws::given_in_any_order();
    laws::given_many();
    let change = Change {
        first: range.first.0,
        end: range.first.0 + range.count,
        entry,
    };
    let depth = tree.geometry().depth();
    let Spare { stock } = spare;
    let freed = Stock::new();
    let mut walk = Walk {
        spare: stock,
        freed,
        reads: mem::replace(reads, Reads::new()),
    };
    let table = &mut tree.table;
    set_all(table, depth, change, &mut walk);
    let Walk {
        spare,
        freed,
        reads: looked,
    } = walk;
    *reads = looked;
    spare.close();
    drain(freed, tree, pool);
}

/// Gives the pages of a range an entry, which advances along the range, or changes nothing, except that the tree may
/// get more spares: it returns NoPool if and only if the pool has fewer frames than the change needs tables, NoMemory
/// only if the tree has fewer spares than that and the allocator refused memory. The tree is the one coarsest tree of
/// its map, before and afterwards, so only the maps and the number of free frames decide on NoPool.
pub fn set<A: Allocator + Copy>(
    alloc: A,
    tree: &mut Tree<A>,
    pool: &mut Pool,
    range: PageRange,
    entry: Entry,
    reads: &mut Reads,
) -> Result<(), PoolFault>
    requires fits { FitsTree tree.old.geometry range entry }
    requires apart { AreApart tree.old [] pool.old }
    ensures changed { OnOk result (IsChanged (edit_on range entry) tree.old pool.old tree.new pool.new) }
    ensures refused { IfErr result
        (IsRefused (need_in tree.old (edit_on range entry)) tree.old pool.old tree.new pool.new) }
    ensures stays { OnErr result (Stays tree.old tree.new) }
    ensures keeps { KeepsFrames tree.old [] pool.old tree.new pool.new }
    ensures canonical { IsCanonical (levels_below tree.new.geometry) (tree_of tree.new) }
    ensures by_map { (result ≡ Err NoPool)
        ↔ (length pool.old.frames < map_need (levels_below tree.old.geometry)
        (meaning tree.old) (edit_on range entry)) }
    ensures reads { count_of reads.new ≤ count_of reads.old + 4 * range.count + 4096 }
{
    let spare = reserve(alloc, tree, pool, range, &entry, reads)?;
    set_with(tree, pool, range, entry, spare, reads);
    Ok(())
}
