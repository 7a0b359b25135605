//! Blocks below the root that have no table although no word can encode the map there.
ghost use Rattle.std.specs.Prelude.{◌≡◌, ℕ, ◌+◌, ◌-◌, ◌*◌, ◌/◌, ◌^◌, ◌<◌, ◌≤◌, ◌++◌, ◌↔◌, true, is_some, min, Contains, IfOk, IsTrue, MatchOption, OnOk};
ghost use Rattle.std.specs.List.Sorted.{IsNonDecreasing};
ghost use Rattle.page_state.specs.Blocks.{fits_word};
ghost use Rattle.page_state.specs.Geometries.{block_pages};
ghost use Rattle.page_state.specs.Runs.{entry_on, map_of, run_end, IsCoarsest};
ghost use Rattle.ghost_trees.specs.KeptTrees.{IsKeptTree};
ghost use Rattle.ghost_trees.specs.Small.{AreSmall, IsSmall};
ghost use Rattle.ghost_trees.specs.Trees.{table_of, tree_in_lists};
ghost use Rattle.ghost_coarse.specs.Misfits.{IsLacking};
ghost use Rattle.ghost_coarse.specs.inner.Served.{AreAllServed, AreServedBetween, AreServedFrom, AreServedOn, CoversBetween, Goes, HasAllWanted, HasWantedAt, IsServed, IsUnserved, IsWantingAt, index_in, indexes_in};

use crate::runs::{is_word, span};
use ghost_trees::blocks::Block;
use ghost_trees::tree::{Table, Tree};
use page_state::{Entry, Run};
use std::alloc::{AllocError, Global};

/// Adds the index of a block, if it is of a depth.
fn push_index(indexes: &mut Vec<u64>, block: Block, depth: u64) -> Result<(), AllocError>
    ensures { OnOk result (indexes.new.items ≡ indexes.old.items ++ index_in depth block) }
{
    if block.0 == depth {
        indexes.push(block.1)?;
    }
    Ok(())
}

/// Indexes of the blocks of a depth that have a table.
fn indexes_of(alloc: Global, tables: &[Table], depth: u64) -> Result<Vec<u64>, AllocError>
    ensures { IfOk result (λ v. v.items ≡ indexes_in depth tables.now) }
{
    let mut indexes = Vec::new(alloc);
    for i in 0..tables.len() {
        push_index(&mut indexes, tables[i].block, depth)?;
    }
    Ok(indexes)
}

/// Indexes of the blocks of a depth that have a table, in order.
fn indexes_at(alloc: Global, tables: &[Table], depth: u64) -> Result<Vec<u64>, AllocError>
    ensures rise { IfOk result (λ v. IsNonDecreasing v.items) }
    ensures are { IfOk result
        (λ v. (i : ℕ) → Contains v.items i ↔ (is_some (table_of tables.now (depth, i)) ≡ true)) }
{
    let mut indexes = indexes_of(alloc, tables, depth)?;
    indexes.sort_unstable();
    Ok(indexes)
}

/// Whether a number is in a sorted list.
fn has(indexes: &[u64], index: u64) -> bool
    requires { IsNonDecreasing indexes.now }
    ensures { IsTrue result ↔ Contains indexes.now index }
{
    indexes.binary_search(&index).is_ok()
}

/// Whether a block has a table or needs none.
fn is_served(runs: &[Run], indexes: &[u64], depth: u64, index: u64) -> bool
    requires small { AreSmall runs.now }
    requires coarsest { IsCoarsest runs.now }
    requires rise { IsNonDecreasing indexes.now }
    requires depth { depth ≤ 3 }
    requires low { index * block_pages depth ≤ 2 ^ 63 }
    ensures { IsTrue result ↔ IsServed (map_of runs.now) indexes.now depth index }
{
    if has(indexes, index) {
        return true;
    }
    is_word(runs, (depth, index))
}

/// Whether a word can encode a run on a block whose first page the run has.
fn is_said(run: Run, index: u64, depth: u64) -> bool
    requires run { IsSmall run }
    requires depth { depth ≤ 3 }
    requires first { run.pages.first.0 ≤ index * block_pages depth }
    requires end { index * block_pages depth < run_end run }
    ensures { result ≡ fits_word depth (entry_on run (index * block_pages depth)) }
{
    let offset = index * span(depth) - run.pages.first.0;
    Entry::from(run.target)
        .advance(offset)
        .fits_word(depth as u32)
}

/// Whether a word can encode the first and the last of the blocks along a run, and so each of them.
#[tactic(auto, using(crate::proofs::Along::words_along))]
fn are_words(run: Run, low: u64, high: u64, depth: u64) -> bool
    requires run { IsSmall run }
    requires depth { depth ≤ 3 }
    requires first { run.pages.first.0 ≤ low * block_pages depth }
    requires first_of_last { run.pages.first.0 ≤ high * block_pages depth }
    requires end { high * block_pages depth < run_end run }
    requires end_of_first { low * block_pages depth < run_end run }
    ensures { result ≡ true
        → (i : ℕ)
        → low ≤ i
        → i ≤ high
        → fits_word depth (entry_on run (i * block_pages depth)) ≡ true }
{
    if !is_said(run, low, depth) {
        return false;
    }
    is_said(run, high, depth)
}

/// The index of the first block from one to before another that has no table and needs one.
fn first_unserved(runs: &[Run], indexes: &[u64], depth: u64, from: u64, to: u64) -> Option<u64>
    requires small { AreSmall runs.now }
    requires coarsest { IsCoarsest runs.now }
    requires rise { IsNonDecreasing indexes.now }
    requires depth { depth ≤ 3 }
    requires low { to * block_pages depth ≤ 2 ^ 63 }
    ensures { MatchOption result (AreServedFrom (map_of runs.now) indexes.now depth from to)
        (IsUnserved (map_of runs.now) indexes.now depth to) }
{
    for index in from..to {
        if !is_served(runs, indexes, depth, index) {
            return Some(index);
        }
    }
    None
}

/// The index of the first block between two, all covered by a run, that has no table and needs one. If a word can
/// encode the first and the last of them, a word can encode each.
fn first_between(
    runs: &[Run],
    indexes: &[u64],
    run: Run,
    depth: u64,
    low: u64,
    high: u64,
) -> Option<u64>
    requires small { AreSmall runs.now }
    requires coarsest { IsCoarsest runs.now }
    requires rise { IsNonDecreasing indexes.now }
    requires run { IsSmall run }
    requires depth { depth ≤ 3 }
    requires covers { CoversBetween (map_of runs.now) run depth low high }
    requires order { low ≤ high }
    requires small_index { high < 2 ^ 63 }
    ensures { MatchOption result (AreServedBetween (map_of runs.now) indexes.now depth low high)
        (IsUnserved (map_of runs.now) indexes.now depth high) }
{
    if high <= low + 1 {
        return None;
    }
    if are_words(run, low + 1, high - 1, depth) {
        return None;
    }
    first_unserved(runs, indexes, depth, low + 1, high)
}

/// The index of the last of the first `count` blocks that a run meets.
#[tactic(auto, using(crate::proofs::Along::last_of))]
fn last_block(run: Run, size: u64, count: u64) -> u64
    requires run { IsSmall run }
    requires some { 0 < run.pages.count }
    requires size { 0 < size }
    requires low { run.pages.first.0 / size < count }
    ensures last { result ≡ min ((run_end run - 1) / size) (count - 1) }
    ensures from { run.pages.first.0 / size ≤ result }
    ensures below { result < count }
    ensures end { result * size < run_end run }
    ensures small { result < 2 ^ 63 }
{
    ((run.pages.first.0 + run.pages.count - 1) / size).min(count - 1)
}

/// The index of one of the first `count` blocks of a depth that a run meets, and that has no table and needs one.
fn lacking_on(runs: &[Run], indexes: &[u64], run: Run, depth: u64, count: u64) -> Option<u64>
    requires small { AreSmall runs.now }
    requires coarsest { IsCoarsest runs.now }
    requires rise { IsNonDecreasing indexes.now }
    requires goes { Goes (map_of runs.now) run }
    requires run { IsSmall run }
    requires some { 0 < run.pages.count }
    requires depth { depth ≤ 3 }
    requires low { count * block_pages depth ≤ 2 ^ 63 }
    ensures { MatchOption result (AreServedOn (map_of runs.now) indexes.now depth count run)
        (IsUnserved (map_of runs.now) indexes.now depth count) }
{
    let size = span(depth);
    let low = run.pages.first.0 / size;
    if low >= count {
        return None;
    }
    let high = last_block(run, size, count);
    if !is_served(runs, indexes, depth, low) {
        return Some(low);
    }
    if !is_served(runs, indexes, depth, high) {
        return Some(high);
    }
    first_between(runs, indexes, run, depth, low, high)
}

/// The index of one of the first `count` blocks of a depth that has no table and needs one.
fn lacking_of(runs: &[Run], indexes: &[u64], depth: u64, count: u64) -> Option<u64>
    requires small { AreSmall runs.now }
    requires coarsest { IsCoarsest runs.now }
    requires rise { IsNonDecreasing indexes.now }
    requires depth { depth ≤ 3 }
    requires low { count * block_pages depth ≤ 2 ^ 63 }
    ensures { MatchOption result (AreAllServed (map_of runs.now) indexes.now depth count)
        (IsUnserved (map_of runs.now) indexes.now depth count) }
{
    for i in 0..runs.len() {
        if let Some(index) = lacking_on(runs, indexes, runs[i], depth, count) {
            return Some(index);
        }
    }
    None
}

/// The index of one of the first `count` blocks of a depth at which a tree has no table and needs one.
fn lacking_at(alloc: Global, tree: &Tree, depth: u64, count: u64) -> Result<Option<u64>, AllocError>
    requires kept { IsKeptTree tree.now }
    requires depth { depth ≤ 3 }
    requires low { count * block_pages depth ≤ 2 ^ 63 }
    ensures { IfOk result
        (λ o. MatchOption o (HasWantedAt (tree_in_lists tree.now) depth count)
        (IsWantingAt (tree_in_lists tree.now) depth count)) }
{
    let indexes = indexes_at(alloc, tree.tables.as_slice(), depth)?;
    Ok(lacking_of(tree.runs.as_slice(), indexes.as_slice(), depth, count))
}

/// A block below the root at which a tree has no table and needs one.
pub(crate) fn first_lacking(
    alloc: Global,
    tree: &Tree,
    depth: u64,
) -> Result<Option<Block>, AllocError>
    requires kept { IsKeptTree tree.now }
    requires depth { depth ≤ 3 }
    ensures { IfOk result
        (λ o. MatchOption o (HasAllWanted depth (tree_in_lists tree.now))
        (IsLacking depth (tree_in_lists tree.now))) }
{
    for d in 1..depth + 1 {
        if let Some(index) = lacking_at(alloc, tree, d, span(depth + 1 - d))? {
            return Ok(Some((d, index)));
        }
    }
    Ok(None)
}
