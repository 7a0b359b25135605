//! The blocks at which a tree isn't the coarsest tree of its map.
ghost use Rattle.std.specs.Prelude.{◌≤◌, IfOk, MatchOption};
ghost use Rattle.coarse_trees.specs.Coarsest.{IsCoarsest};
ghost use Rattle.ghost_trees.specs.KeptTrees.{IsKeptTree};
ghost use Rattle.ghost_trees.specs.Trees.{tree_in_lists};
ghost use Rattle.ghost_coarse.specs.Misfits.{AreInside, IsMisfit};

use crate::lacking::first_lacking;
use crate::tables::first_needless;
use ghost_trees::blocks::Block;
use ghost_trees::tree::Tree;
use std::alloc::{AllocError, Global};

/// The blocks at which a tree isn't the coarsest tree of its map.
#[derive(Clone, Copy, PartialEq)]
pub enum Misfit {
    /// A block below the root that has a table although one word can encode the map there.
    Needless(Block),
    /// A block below the root that has no table although no word can encode the map there.
    Lacking(Block),
}

/// The blocks at which a tree isn't the coarsest tree of its map. It takes time by n log n of the number of runs and
/// tables.
pub fn first_misfit(alloc: Global, tree: &Tree, depth: u64) -> Result<Option<Misfit>, AllocError>
    requires depth { depth ≤ 3 }
    requires kept { IsKeptTree tree.now }
    requires inside { AreInside depth tree.now.tables.items }
    ensures { IfOk result
        (λ o. MatchOption o (IsCoarsest depth (tree_in_lists tree.now))
        (IsMisfit depth (tree_in_lists tree.now))) }
{
    if let Some(block) = first_needless(tree.runs.as_slice(), tree.tables.as_slice(), depth) {
        return Ok(Some(Misfit::Needless(block)));
    }
    match first_lacking(alloc, tree, depth)? {
        Some(block) => Ok(Some(Misfit::Lacking(block))),
        None => Ok(None),
    }
}
