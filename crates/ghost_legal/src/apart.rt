//! Whether no tree has two tables at one block.
ghost use Rattle.std.specs.Prelude.{◌≡◌, ◌≤◌, ◌↔◌, drop, length, All, IsTrue};
ghost use Rattle.ghost_legal.specs.Blocks.{HasFirstBlocks, TreesHaveFirstBlocks};

use ghost_spec::lists::GhostLists;
use ghost_spec::parts::GhostGuest;
use ghost_trees::tree::{Table, table_at};

/// The tables from a place on.
fn behind(tables: &[Table], place: usize) -> &[Table]
    requires { place ≤ length tables.now }
    ensures { result.now ≡ drop place tables.now }
{
    &tables[place..]
}

/// Whether no table of a list has the block of an earlier one.
fn has_first_blocks(tables: &[Table]) -> bool
    ensures { IsTrue result ↔ HasFirstBlocks tables.now }
{
    for i in 0..tables.len() {
        if table_at(behind(tables, i + 1), tables[i].block).is_some() {
            return false;
        }
    }
    true
}

/// Whether it is so in each guest's tree.
fn guests_have_first_blocks(guests: &[GhostGuest]) -> bool
    ensures { IsTrue result ↔ All (λ x. HasFirstBlocks x.tree.tables.items) guests.now }
{
    for i in 0..guests.len() {
        if !has_first_blocks(guests[i].tree.tables.as_slice()) {
            return false;
        }
    }
    true
}

/// Whether no tree has two tables at one block. Of two, only the first in the list counts. It takes time by the square
/// of the number of a tree's tables.
pub fn have_first_blocks(state: &GhostLists) -> bool
    ensures { IsTrue result ↔ TreesHaveFirstBlocks state.now }
{
    if !has_first_blocks(state.shared.host.tables.as_slice()) {
        return false;
    }
    if !has_first_blocks(state.shared.hyp.tables.as_slice()) {
        return false;
    }
    guests_have_first_blocks(state.guests.as_slice())
}
