//! The walk of a tree.
ghost use Rattle.std.specs.Prelude.{◌≡◌, ◌+◌, ◌*◌, ◌^◌, ◌≤◌, ◌++◌, All, AllPairs, IfErr, IfOk, OnOk, map};
ghost use Rattle.page_state.specs.Geometries.{block_pages, levels_below};
ghost use Rattle.ghost_trees.specs.KeptTrees.{IsKeptTree};
ghost use Rattle.ghost_trees.specs.Trees.{tree_in_lists};
ghost use Rattle.c_tables.specs.ByFrames.{IsWhole, tables_under, tree_by_frames};
ghost use Rattle.c_tables.specs.Reached.{AreOtherFrames, IsStopped};
ghost use Rattle.c_tables.specs.Walks.{HasComeTo, IsTableLaid};

use crate::follow::{PlainPage, entry_of, next_page};
use crate::reached::{Reached, Stopped, reach};
use crate::runs::{as_map, put};
use ghost_trees::tree::{Table, Tree};
use page_state::{Geometry, Target, pages_under};
use run_list::Run;
use std::alloc::{AllocError, Global};

/// Walks a table at block `number` of the blocks of its level, which has `depth` levels below it, and all that its words lead
/// on to. Each table is added to those that were met, and each page's entry to the runs.
fn walk_table(
    pages: &[PlainPage<'_>],
    tree: u64,
    depth: u32,
    number: u64,
    page: PlainPage<'_>,
    met: &mut Vec<Reached>,
    runs: &mut Vec<Run<Target>>,
) -> Result<(), Stopped>
    requires depth_in { depth ≤ 3 }
    requires whole { All IsWhole pages.now }
    requires page { IsWhole page }
    requires place { (number + 1) * block_pages (depth + 1) ≤ 2 ^ 36 }
    requires before { HasComeTo (number * block_pages (depth + 1)) met.old.items runs.old.items }
    ensures met { OnOk result
        (met.new.items ≡ met.old.items ++ tables_under pages.now tree depth number page.entry) }
    ensures map { OnOk result (IsTableLaid pages.now depth number page.entry runs.old.items runs.new.items) }
    ensures after { OnOk result
        (HasComeTo ((number + 1) * block_pages (depth + 1)) met.new.items runs.new.items) }
    ensures stopped { IfErr result
        (IsStopped (met.old.items ++ tables_under pages.now tree depth number page.entry)) }
{
    let table = Table {
        block: (depth as u64 + 1, number),
        frame: page.frame,
    };
    reach(met, Reached { tree, table })?;
    let each = pages_under(depth);
    for i in 0..512usize {
        let part = number * 512 + i as u64;
        let word = page.words[i];
        match next_page(pages, depth, word) {
            Some(next) => walk_table(pages, tree, depth - 1, part, next, met, runs)?,
            None => put(runs, part * each, each, entry_of(depth, word))?,
        }
    }
    Ok(())
}

/// The tables of a list.
fn tables_from(alloc: Global, met: &[Reached]) -> Result<Vec<Table>, AllocError>
    ensures { IfOk result (λ v. v.items ≡ map (λ r. r.table) met.now) }
{
    met.iter().map(|reached| reached.table).collect(alloc)
}

/// Walks a tree from its root's page. Its tables are added to those that were met, of other trees too.
pub fn walked(
    alloc: Global,
    geometry: Geometry,
    pages: &[PlainPage<'_>],
    tree: u64,
    root: PlainPage<'_>,
    met: &mut Vec<Reached>,
) -> Result<Tree, Stopped>
    requires whole { All IsWhole pages.now }
    requires root { IsWhole root }
    requires apart { AllPairs AreOtherFrames met.old.items }
    ensures tree { IfOk result (λ t. tree_in_lists t ≡ tree_by_frames geometry pages.now tree root.entry) }
    ensures kept { IfOk result IsKeptTree }
    ensures met { OnOk result
        (met.new.items
        ≡ met.old.items ++ tables_under pages.now tree (levels_below geometry) 0 root.entry) }
    ensures apart { OnOk result (AllPairs AreOtherFrames met.new.items) }
    ensures stopped { IfErr result
        (IsStopped
        (met.old.items ++ tables_under pages.now tree (levels_below geometry) 0 root.entry)) }
{
    let start = met.len();
    let mut runs = Vec::new(alloc);
    walk_table(pages, tree, geometry.depth(), 0, root, met, &mut runs)?;
    let tables = tables_from(alloc, &met[start..])?;
    let runs = as_map(alloc, runs.as_slice())?;
    Ok(Tree { runs, tables })
}
