//! Each tree is the coarsest of its map. The function does nothing, and its contract is the law.
ghost use Rattle.coarse_trees.specs.Coarsest.{IsCanonical};
ghost use Rattle.page_state.specs.Geometries.{levels_below};
ghost use Rattle.table_tree.specs.View.{tree_of};

use std::alloc::Allocator;
use table_tree::Tree;

/// Each tree is the one coarsest tree of its map, up to the frames of its tables, and no tree of the map has fewer tables.
pub fn canonical<A: Allocator>(tree: &Tree<A>)
    ensures { IsCanonical (levels_below tree.now.geometry) (tree_of tree.now) }
{
    let _ = &tree.table;
}
