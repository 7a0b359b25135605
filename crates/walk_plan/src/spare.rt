//! Tables in hand for a change.
ghost use Rattle.std.specs.Prelude.{◌≡◌, ℕ, ◌+◌, ◌*◌, ◌<◌, ◌≤◌, length, take, drop, IsOk, IfOk, IfErr, OnErr};
ghost use Rattle.page_state.specs.Counts.{frame_count};
ghost use Rattle.table_tree.specs.Reading.{count_of};
ghost use Rattle.table_tree.specs.Stocks.{frames_of};
ghost use Rattle.table_tree.specs.View.{spares_of};
ghost use Rattle.walk_plan.specs.Hands.{FitsTree, IsGivenBack, IsLeft, IsRefused, IsTaken, Stays, edit_on, need_in};

use crate::needs::need;
use hyp_pool::{Pool, PoolFault, laws};
use page_state::{Entry, PageRange};
use std::alloc::{AllocError, Allocator};
use table_tree::{Reads, Stock, Tree};

/// The tables for one change, with frames of a pool. It must be spent: by that change, or by `release`.
pub struct Spare<A: Allocator> {
    pub stock: Stock<A>,
}

/// Takes the frames that a change of a range needs out of the pool, the lowest, and a table for each: the tree's
/// spares, and new ones if those are too few. It returns NoPool if and only if fewer frames are free, NoMemory only if
/// the spares are too few and the allocator refused memory. After a refusal only the tree's spares may have grown.
pub fn reserve<A: Allocator + Copy>(
    alloc: A,
    tree: &mut Tree<A>,
    pool: &mut Pool,
    range: PageRange,
    entry: &Entry,
    reads: &mut Reads,
) -> Result<Spare<A>, PoolFault>
    requires { FitsTree tree.old.geometry range entry.now }
    ensures taken { IfOk result
        (λ s. IsTaken
        (need_in tree.old (edit_on range entry.now)) tree.old pool.old tree.new pool.new
        (frames_of s.stock)) }
    ensures refused { IfErr result
        (IsRefused
        (need_in tree.old (edit_on range entry.now)) tree.old pool.old tree.new pool.new) }
    ensures stays { Stays tree.old tree.new }
    ensures room { pool.new.room ≡ pool.old.room }
    ensures reads { 2 * count_of reads.new ≤ 2 * count_of reads.old + 3 * range.count + 12 }
{
    let need = need(tree, range, entry, reads);
    if pool.free() < need {
        return Err(PoolFault::NoPool);
    }
    Ok(reserve_tables(alloc, tree, pool, need)?)
}

/// Takes the lowest `count` frames out of the pool and a table for each. Requires that this many are free: it is
/// `reserve` for a caller that has already counted the need and the pool. It is refused only if the spares are too few
/// and the allocator refused memory; then only the tree's spares may have grown.
pub fn reserve_tables<A: Allocator + Copy>(
    alloc: A,
    tree: &mut Tree<A>,
    pool: &mut Pool,
    count: usize,
) -> Result<Spare<A>, AllocError>
    requires { count ≤ length pool.old.frames }
    ensures taken { IfOk result (λ s. IsTaken count tree.old pool.old tree.new pool.new (frames_of s.stock)) }
    ensures left { OnErr result (IsLeft tree.old pool.old tree.new pool.new) }
    ensures succeeds { count ≤ spares_of tree.old → IsOk result }
    ensures stays { Stays tree.old tree.new }
    ensures room { pool.new.room ≡ pool.old.room }
{
    tree.grow_spares(alloc, count)?;
    let stock = in_frames(tree, pool, count);
    Ok(Spare { stock })
}

/// The lowest `count` frames of the pool, each with a spare of the tree.
fn in_frames<A: Allocator>(tree: &mut Tree<A>, pool: &mut Pool, count: usize) -> Stock<A>
    requires spares { count ≤ spares_of tree.old }
    requires free { count ≤ length pool.old.frames }
    ensures stock { frames_of result ≡ take count pool.old.frames }
    ensures pool { pool.new.frames ≡ drop count pool.old.frames }
    ensures spares { spares_of tree.new + count ≡ spares_of tree.old }
    ensures stays { Stays tree.old tree.new }
    ensures room { pool.new.room ≡ pool.old.room }
{
    let mut stock = Stock::new();
    for _taken in 0..count {
        let frame = pool.take().unwrap();
        let table = tree.take_spare(frame).unwrap();
        stock.push(table);
    }
    stock.turned()
}

/// Gives the frames of a stock's tables to a pool, and keeps the tables as spares. Requires that all frames are distinct and
/// that the room covers them.
pub fn drain<A: Allocator>(stock: Stock<A>, tree: &mut Tree<A>, pool: &mut Pool)
    requires distinct { (f : ℕ) → frame_count f (frames_of stock) + frame_count f pool.old.frames ≤ 1 }
    requires covered { length (frames_of stock) + length pool.old.frames ≤ pool.old.room }
    ensures { IsGivenBack (frames_of stock) tree.old pool.old tree.new pool.new }
{
    laws::given_in_any_order();
    laws::given_one();
    laws::counted_frames();
    let mut stock = stock;
    while let Some(table) = stock.pop() {
        pool.give(table.frame());
        tree.keep_spare(table);
    }
    stock.close();
}

/// Gives all that is in hand back: the frames to the pool, and the tables to the tree's spares. Requires that all frames are
/// distinct and that the room covers them.
pub fn release<A: Allocator>(spare: Spare<A>, tree: &mut Tree<A>, pool: &mut Pool)
    requires distinct { (f : ℕ) → frame_count f (frames_of spare.stock) + frame_count f pool.old.frames ≤ 1 }
    requires covered { length (frames_of spare.stock) + length pool.old.frames ≤ pool.old.room }
    ensures { IsGivenBack (frames_of spare.stock) tree.old pool.old tree.new pool.new }
{
    let Spare { stock } = spare;
    drain(stock, tree, pool);
}
