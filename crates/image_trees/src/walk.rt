//! The walk.
ghost use Rattle.std.specs.Prelude.{◌≡◌, ◌≤◌, ◌<◌, ◌^◌, ◌+◌, All, IfOk, IfErr, length, map};
ghost use Rattle.memory_image.specs.CoreFile.{IsPlaced};
ghost use Rattle.run_list.specs.View.{IsKept};
ghost use Rattle.walked_tables.specs.Values.{advance_said, CanGoOn};
ghost use Rattle.walked_tables.specs.ByFrames.{most_pages};
ghost use Rattle.image_trees.specs.KeptPages.{kept_told, HasWords, IsWalkedBy};
ghost use Rattle.image_trees.specs.Trees.{IsTreeOf};
ghost use Rattle.image_trees.specs.Unwalked.{IsStoppedBy, IsUnwalked};

use crate::kept::{KeptPage, add_missing, lent, read_root};
use crate::root::{Root, Tree, Unwalked};
use memory_image::{ImageBytes, Segment, page_buffer};
use std::alloc::Global;
use walked_tables::walked;

/// A tree with as many tables isn't walked.
const TABLES: usize = 1 << 20;

/// Walks the tree by the pages that were read.
fn walk_kept(alloc: Global, root: &Root, kept: &[KeptPage]) -> Result<Tree, Unwalked>
    requires depth { root.now.depth ≤ 4 }
    requires few { root.now.count ≤ most_pages root.now.depth }
    requires roots { root.now.count ≤ length kept.now }
    requires whole { All HasWords kept.now }
    ensures walked { IfOk result
        (λ tree. IsWalkedBy root.now (map kept_told kept.now) tree.tables.items tree.runs.items) }
    ensures stopped { IfErr result (IsStoppedBy root.now (map kept_told kept.now)) }
{
    let pages = lent(alloc, kept)?;
    let roots = &pages[..root.count as usize];
    let mut tables = Vec::new(alloc);
    let runs = walked(
        alloc,
        &root.profile,
        pages.as_slice(),
        root.tree,
        root.depth,
        roots,
        &mut tables,
    )?;
    Ok(Tree { runs, tables })
}

/// Walks the tree of a root. Pages of tables are read from the image as its words name them, each level at once.
pub fn walk_tree<I: ImageBytes>(
    alloc: Global,
    image: &I,
    segments: &[Segment],
    root: &Root,
) -> Result<Tree, Unwalked>
    requires placed { All IsPlaced segments.now }
    requires depth { root.now.depth ≤ 4 }
    requires few { root.now.count ≤ most_pages root.now.depth }
    requires frames { root.now.frame + root.now.count < 2 ^ 64 }
    ensures tree { IfOk result
        (λ tree. IsTreeOf
        (I.bytes image.now) segments.now root.now tree.runs.items tree.tables.items) }
    ensures kept { IfOk result (λ tree. IsKept advance_said CanGoOn tree.runs.items) }
    ensures unwalked { IfErr result (IsUnwalked (I.bytes image.now) (I.may_fail image.now) segments.now root.now) }
{
    let mut buffer = page_buffer(alloc)?;
    let bytes = buffer.as_mut_slice();
    let mut kept = read_root(alloc, image, segments, root, bytes)?;
    while kept.len() < TABLES {
        let tree = walk_kept(alloc, root, kept.as_slice())?;
        let before = kept.len();
        add_missing(
            alloc,
            image,
            segments,
            tree.runs.as_slice(),
            bytes,
            &mut kept,
        )?;
        if kept.len() == before {
            return Ok(tree);
        }
    }
    Err(Unwalked::TooManyTables)
}
