//! Kept tables and tables that were found.
ghost use Rattle.std.specs.Prelude.{◌≡◌, All, MatchOption};
ghost use Rattle.ghost_trees.specs.Trees.{table_of};
ghost use Rattle.ghost_judge.specs.inner.Same.{HasSameFrame};
ghost use Rattle.table_audit.specs.Tables.{IsTableApart, IsTableFinding};

use crate::finding::Finding;
use ghost_judge::disagreement::TreeOf;
use ghost_trees::blocks::Block;
use ghost_trees::tree::{Table, table_at};

/// The first of a list of tables at whose block two others differ.
fn apart_among(tables: &[Table], a: &[Table], b: &[Table]) -> Option<Block>
    ensures { MatchOption result (All (HasSameFrame a.now b.now) tables.now) (IsTableApart a.now b.now) }
{
    for i in 0..tables.len() {
        let block = tables[i].block;
        if table_at(a, block) != table_at(b, block) {
            return Some(block);
        }
    }
    None
}

/// The first block at which two lists have tables of different frames, or only one has a table.
fn first_block_apart(kept: &[Table], walked: &[Table]) -> Option<Block>
    ensures { MatchOption result (table_of kept.now ≡ table_of walked.now)
        (IsTableApart kept.now walked.now) }
{
    match apart_among(kept, kept, walked) {
        Some(block) => Some(block),
        None => apart_among(walked, kept, walked),
    }
}

/// The first table that differs.
pub(crate) fn in_tables(tree: TreeOf, kept: &[Table], walked: &[Table]) -> Option<Finding>
    ensures { MatchOption result (table_of kept.now ≡ table_of walked.now)
        (IsTableFinding tree (table_of kept.now) (table_of walked.now)) }
{
    match first_block_apart(kept, walked) {
        Some(block) => Some(Finding::Table {
            tree,
            height: block.0,
            index: block.1,
            kept: table_at(kept, block),
            walked: table_at(walked, block),
        }),
        None => None,
    }
}
