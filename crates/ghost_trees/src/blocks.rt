//! Aligned blocks of pages: which meet a range, which can be one word, and which map nothing.
ghost use Rattle.std.specs.Prelude.{◌≡◌, ℕ, true, false, ◌+◌, ◌*◌, ◌^◌, ◌<◌, ◌≤◌, ◌++◌, ◌||◌, ◌==◌, All, IfOk, OnOk, filter};
ghost use Rattle.page_state.specs.EntryTests.{is_unmapped};
ghost use Rattle.page_state.specs.Geometries.{block_pages};
ghost use Rattle.page_state.specs.Regions.{end_of, is_in_range};
ghost use Rattle.page_state.specs.Runs.{map_of, run_end, IsCoarsest};
ghost use Rattle.page_state.specs.Search.{all_below};
ghost use Rattle.page_state.specs.Blocks.{first_page as first_page_of, is_one_word as is_one_word_of, is_empty as is_empty_of, blocks_with, blocks_from, blocks_on as blocks_on_range};
ghost use Rattle.ghost_trees.specs.Small.{AreSmall, IsSmall};
ghost use Rattle.ghost_trees.specs.Trees.{IsLowBlock};

use page_state::{Entry, PageRange, Run};
use std::alloc::{AllocError, Global};

/// A block (d, i): the 512^d aligned pages from page i * 512^d on (Arm DDI 0487, D8.2, 4 KiB granule).
pub type Block = (u64, u64);

/// The blocks of depth `top` and less that meet a range, by page, the parent before the child.
pub(crate) fn blocks_on(alloc: Global, top: u64, range: PageRange) -> Result<Vec<Block>, AllocError>
    requires top { top ≤ 3 }
    requires pages { end_of range ≤ 2 ^ 63 }
    ensures value { IfOk result (λ v. v.items ≡ blocks_on_range top range.first.0 range.count) }
    ensures low { IfOk result (λ v. All IsLowBlock v.items) }
{
    let mut blocks = Vec::new(alloc);
    if range.count == 0 {
        return Ok(blocks);
    }
    let first = range.first.0;
    push_blocks(&mut blocks, top, first, true)?;
    // After the first page, blocks begin only at multiples of 512 pages.
    let last = (first + range.count - 1) / 512;
    for i in first / 512 + 1..last + 1 {
        push_blocks(&mut blocks, top, i * 512, false)?;
    }
    Ok(blocks)
}

/// Whether one word can encode the map of a coarsest list of runs on a block: no run meets the block, or one covers it
/// and gives it an entry that fits. It reads only the runs.
pub fn is_one_word(runs: &[Run], block: Block) -> bool
    requires runs { AreSmall runs.now }
    requires coarsest { IsCoarsest runs.now }
    requires block { IsLowBlock block }
    ensures { result ≡ is_one_word_of (map_of runs.now) block }
{
    let first = first_page(block);
    let count = span(block.0);
    for run in runs {
        if meets(run, first, count) {
            if !covers(run, first, count) {
                return false;
            }
            let entry = Entry::from(run.target).advance(first - run.pages.first.0);
            return entry.fits_word(block.0 as u32);
        }
    }
    true
}

/// Whether the map of runs maps nothing on a block. It reads only the runs.
pub fn is_empty(runs: &[Run], block: Block) -> bool
    requires runs { AreSmall runs.now }
    requires block { IsLowBlock block }
    ensures { result ≡ is_empty_of (map_of runs.now) block }
{
    has_no_entry(runs, first_page(block), span(block.0))
}

/// The number of pages of a block.
fn span(depth: u64) -> u64
    requires { depth ≤ 3 }
    ensures value { result ≡ block_pages depth }
    ensures some { 0 < result }
    ensures low { result ≤ 2 ^ 27 }
{
    match depth {
        0 => 1,
        1 => 512,
        2 => 262_144,
        _ => 134_217_728,
    }
}

/// The first page of a block.
fn first_page(block: Block) -> u64
    requires { IsLowBlock block }
    ensures { result ≡ first_page_of block }
{
    block.1 * span(block.0)
}

/// Adds the blocks of depth `top` and less that hold a page, the greatest first: all, or only those that begin at it.
fn push_blocks(blocks: &mut Vec<Block>, top: u64, page: u64, all: bool) -> Result<(), AllocError>
    requires top { top ≤ 3 }
    requires page { page ≤ 2 ^ 63 }
    ensures { OnOk result
        (blocks.new.items
        ≡ blocks.old.items
        ++ filter (λ b. all || first_page_of b == page) (blocks_with top page)) }
{
    for i in 0..top {
        let block = (top - i, page / span(top - i));
        if is_met(block, page, all) {
            blocks.push(block)?;
        }
    }
    Ok(())
}

/// Whether all blocks count, or the block begins with the page.
fn is_met(block: Block, page: u64, all: bool) -> bool
    requires { IsLowBlock block }
    ensures { result ≡ (all || first_page_of block == page) }
{
    all || first_page(block) == page
}

/// Whether a run has all of `count` pages from `first` on.
fn covers(run: &Run, first: u64, count: u64) -> bool
    requires run { IsSmall run.now }
    requires pages { first + count < 2 ^ 64 }
    ensures all { result ≡ true → (run.now.pages.first.0 ≤ first) × (first + count ≤ run_end run.now) }
    ensures not_all { result ≡ false → run.now.pages.first.0 ≤ first → first + count ≤ run_end run.now → ⊥ }
{
    run.pages.first.0 <= first && first + count <= run.pages.first.0 + run.pages.count
}

/// Whether a run has one of `count` pages from `first` on.
fn meets(run: &Run, first: u64, count: u64) -> bool
    requires run { IsSmall run.now }
    requires pages { first + count < 2 ^ 64 }
    ensures some { result ≡ true → (k : ℕ) × (k < count) × (is_in_range run.now.pages (first + k) ≡ true) }
    ensures none { result ≡ false → (k : ℕ) → k < count → is_in_range run.now.pages (first + k) ≡ false }
{
    let from = run.pages.first.0.max(first);
    let end = (run.pages.first.0 + run.pages.count).min(first + count);
    from < end
}

/// Whether nothing is mapped on `count` pages from `first` on: no run has one of them.
fn has_no_entry(runs: &[Run], first: u64, count: u64) -> bool
    requires runs { AreSmall runs.now }
    requires pages { first + count < 2 ^ 64 }
    ensures { result ≡ all_below count (λ i. is_unmapped (map_of runs.now (first + i))) }
{
    for run in runs {
        if meets(run, first, count) {
            return false;
        }
    }
    true
}
