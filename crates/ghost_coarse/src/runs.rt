//! Whether one word can encode the map of runs on a block.
ghost use Rattle.std.specs.Prelude.{◌≡◌, ℕ, ◌+◌, ◌≤◌, drop, length, take, nat_lt};
ghost use Rattle.page_state.specs.Blocks.{is_one_word as is_one_word_of};
ghost use Rattle.page_state.specs.Geometries.{block_pages};
ghost use Rattle.page_state.specs.Runs.{map_of, run_end, IsCoarsest};
ghost use Rattle.ghost_trees.specs.Parts.{EndBefore};
ghost use Rattle.ghost_trees.specs.Small.{AreSmall};
ghost use Rattle.ghost_trees.specs.Trees.{IsLowBlock};

use ghost_trees::blocks::{Block, is_one_word};
use page_state::Run;

/// The number of pages of a block.
pub(crate) fn span(depth: u64) -> u64
    requires { depth ≤ 4 }
    ensures { result ≡ block_pages depth }
{
    match depth {
        0 => 1,
        1 => 512,
        2 => 262_144,
        3 => 134_217_728,
        _ => 68_719_476_736,
    }
}

/// Whether a run ends before a page.
fn ends_before(run: &Run, page: u64) -> bool
    ensures { result ≡ nat_lt (run_end run.now) page }
{
    let first = run.pages.first.0;
    first < page && run.pages.count < page - first
}

/// How many runs end before a page.
fn ended_before(runs: &[Run], page: u64) -> usize
    requires { IsCoarsest runs.now }
    ensures within { result ≤ length runs.now }
    ensures front { EndBefore page (take result runs.now) }
{
    runs.partition_point(|run| ends_before(run, page))
}

/// The runs from a place on.
fn behind(runs: &[Run], place: usize) -> &[Run]
    requires { place ≤ length runs.now }
    ensures { result.now ≡ drop place runs.now }
{
    &runs[place..]
}

/// The runs from the first on that doesn't end before a page.
fn runs_from(runs: &[Run], page: u64) -> &[Run]
    requires small { AreSmall runs.now }
    requires coarsest { IsCoarsest runs.now }
    ensures small { AreSmall result.now }
    ensures coarsest { IsCoarsest result.now }
    ensures same { (p : ℕ) → page ≤ p → map_of result.now p ≡ map_of runs.now p }
{
    behind(runs, ended_before(runs, page))
}

/// Whether one word can encode the map of runs on a block. It doesn't read the runs that end before the block.
pub(crate) fn is_word(runs: &[Run], block: Block) -> bool
    requires small { AreSmall runs.now }
    requires coarsest { IsCoarsest runs.now }
    requires block { IsLowBlock block }
    ensures { result ≡ is_one_word_of (map_of runs.now) block }
{
    is_one_word(runs_from(runs, block.1 * span(block.0)), block)
}
