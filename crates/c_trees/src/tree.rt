//! The tree of a root.
ghost use Rattle.std.specs.Prelude.{◌≡◌, ◌≤◌, ◌++◌, All, AllPairs, IfErr, IfOk, OnOk, map};
ghost use Rattle.ghost_trees.specs.KeptTrees.{IsKeptTree};
ghost use Rattle.ghost_trees.specs.Trees.{tree_in_lists};
ghost use Rattle.page_state.specs.Runs.{map_of};
ghost use Rattle.walked_tables.specs.ByFrames.{IsWhole};
ghost use Rattle.walked_tables.specs.Reached.{AreOtherFrames, IsStopped};
ghost use Rattle.c_trees.specs.Roots.{IsGoodRoot};
ghost use Rattle.c_trees.specs.Trees.{as_table, tables_by_root, tree_by_root, HasLowDepth};

use crate::entries::entries;
use crate::root::{PlainRoot, depth_of, profile_of_root};
use crate::skips::left_out;
use crate::tested::pages_of_root;
use ghost_trees::tree::{Table, Tree};
use page_state::Geometry;
use std::alloc::{AllocError, Global};
use walked_tables::{Reached, Stopped, TablePage, walked};

fn table_of(reached: Reached) -> Table
    requires { reached.depth ≤ 3 }
    ensures { result ≡ as_table reached }
{
    Table {
        block: (reached.depth + 1, reached.number),
        frame: reached.frame,
    }
}

/// The tables of a list.
fn tables_in(alloc: Global, met: &[Reached]) -> Result<Vec<Table>, AllocError>
    requires { All HasLowDepth met.now }
    ensures { IfOk result (λ v. v.items ≡ map as_table met.now) }
{
    let mut tables = Vec::new(alloc);
    for i in 0..met.len() {
        tables.push(table_of(met[i]))?;
    }
    Ok(tables)
}

/// The tree of a root, by the kept one. Its tables are added to those that were met, of other trees too.
pub(crate) fn tree_of_root(
    alloc: Global,
    geometry: Geometry,
    pages: &[TablePage<'_>],
    kept: &Tree,
    root: &PlainRoot<'_>,
    met: &mut Vec<Reached>,
) -> Result<Tree, Stopped>
    requires whole { All IsWhole pages.now }
    requires kept { IsKeptTree kept.now }
    requires root { IsGoodRoot root.now }
    requires apart { AllPairs AreOtherFrames met.old.items }
    ensures tree { IfOk result
        (λ t. tree_in_lists t ≡ tree_by_root geometry pages.now root.now (map_of kept.now.runs.items)) }
    ensures kept { IfOk result IsKeptTree }
    ensures met { OnOk result (met.new.items ≡ met.old.items ++ tables_by_root geometry pages.now root.now) }
    ensures apart { OnOk result (AllPairs AreOtherFrames met.new.items) }
    ensures stopped { IfErr result (IsStopped (met.old.items ++ tables_by_root geometry pages.now root.now)) }
{
    let start = met.len();
    let profile = profile_of_root(root);
    let depth = depth_of(geometry, root);
    let roots = pages_of_root(alloc, pages, root)?;
    let said = walked(
        alloc,
        &profile,
        pages,
        root.tree,
        depth,
        roots.as_slice(),
        met,
    )?;
    let all = entries(alloc, &profile, kept.runs.as_slice(), said)?;
    let runs = left_out(alloc, root.skips, all)?;
    let tables = tables_in(alloc, &met[start..])?;
    Ok(Tree { runs, tables })
}
