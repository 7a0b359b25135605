//! Tables at blocks that aren't in a tree, and tables at blocks that one word can encode.
ghost use Rattle.std.specs.Prelude.{◌≡◌, ◌+◌, ◌≤◌, ◌↔◌, All, IsTrue, MatchOption, true};
ghost use Rattle.coarse_trees.specs.Coarsest.{IsInTree};
ghost use Rattle.page_state.specs.Blocks.{is_one_word};
ghost use Rattle.page_state.specs.Runs.{map_of, IsCoarsest};
ghost use Rattle.ghost_trees.specs.Small.{AreSmall};
ghost use Rattle.ghost_trees.specs.Trees.{table_of};
ghost use Rattle.ghost_coarse.specs.Misfits.{AreInside, IsNeedless, IsOutside};
ghost use Rattle.ghost_coarse.specs.inner.Served.{tree_with, AreNeeded};

use crate::runs::{is_word, span};
use ghost_trees::blocks::Block;
use ghost_trees::tree::Table;
use page_state::Run;

/// Whether a block is one of a tree.
fn is_inside(block: Block, depth: u64) -> bool
    requires { depth ≤ 3 }
    ensures { IsTrue result ↔ IsInTree depth block }
{
    if block.0 < 1 {
        return false;
    }
    if block.0 > depth + 1 {
        return false;
    }
    if block.1 >= span(depth + 1 - block.0) {
        return false;
    }
    true
}

/// The block of the first table that isn't at a block of a tree.
pub fn first_outside(tables: &[Table], depth: u64) -> Option<Block>
    requires { depth ≤ 3 }
    ensures { MatchOption result (AreInside depth tables.now) (IsOutside depth (table_of tables.now)) }
{
    for i in 0..tables.len() {
        let block = tables[i].block;
        if !is_inside(block, depth) {
            return Some(block);
        }
    }
    None
}

/// Whether a block is below the root, and one word can encode the map of runs there.
#[tactic(auto, using(crate::proofs::Placed::low_block))]
fn is_word_below(runs: &[Run], block: Block, depth: u64) -> bool
    requires small { AreSmall runs.now }
    requires coarsest { IsCoarsest runs.now }
    requires depth { depth ≤ 3 }
    requires block { IsInTree depth block }
    ensures { IsTrue result ↔ ((block.0 ≤ depth) × (is_one_word (map_of runs.now) block ≡ true)) }
{
    if block.0 > depth {
        return false;
    }
    is_word(runs, block)
}

/// The block of the first table below the root at a block that one word can encode.
pub(crate) fn first_needless(runs: &[Run], tables: &[Table], depth: u64) -> Option<Block>
    requires small { AreSmall runs.now }
    requires coarsest { IsCoarsest runs.now }
    requires depth { depth ≤ 3 }
    requires inside { AreInside depth tables.now }
    ensures { MatchOption result (AreNeeded depth (map_of runs.now) tables.now)
        (IsNeedless depth (tree_with runs.now tables.now)) }
{
    for i in 0..tables.len() {
        let block = tables[i].block;
        if is_word_below(runs, block, depth) {
            return Some(block);
        }
    }
    None
}
