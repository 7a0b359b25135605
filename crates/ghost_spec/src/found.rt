//! Searches of lists of runs and of tables.
ghost use Rattle.std.specs.Prelude.{◌≡◌, ◌<◌, ◌≤◌, ◌^◌, IfSome};
ghost use Rattle.page_state.specs.Geometries.{pages_below};
ghost use Rattle.page_state.specs.LayoutView.{layout_of};
ghost use Rattle.page_state.specs.Runs.{map_of};
ghost use Rattle.reference_model.specs.model.Owner.{is_free as is_free_of, is_in_hand as is_in_hand_of, is_table_frame as is_table_frame_of, page_of as page_of_map};
ghost use Rattle.ghost_spec.specs.Found.{run_page as run_page_of, first_page_in, has_place as has_place_of, is_table_with as is_table_with_of, any_table_with};
ghost use Rattle.ghost_trees.specs.KeptTrees.{IsKeptTree};
ghost use Rattle.ghost_trees.specs.Small.{AreSmall, IsSmall};
ghost use Rattle.ghost_trees.specs.Trees.{tree_in_lists};

use ghost_trees::blocks::Block;
use ghost_trees::tree::{Table, Tree, table_at};
use page_state::{Layout, Page, PageRange, Run, State, Target};

/// The page of a run that maps the frame in the state.
fn run_page(run: Run, state: State, frame: u64) -> Option<u64>
    requires { IsSmall run }
    ensures { result ≡ run_page_of frame state run }
{
    match run.target {
        Target::Leaf {
            frame: first,
            state: own,
            ..
        } => {
            if own == state && frame >= first.0 && frame - first.0 < run.pages.count {
                Some(run.pages.first.0 + (frame - first.0))
            } else {
                None
            }
        }
        _ => None,
    }
}

/// The page of the first run that maps the frame in the state.
fn page_in(runs: &[Run], state: State, frame: u64) -> Option<u64>
    requires { AreSmall runs.now }
    ensures { result ≡ first_page_in frame state runs.now }
{
    for run in runs {
        let found = run_page(*run, state, frame);
        if found.is_some() {
            return found;
        }
    }
    None
}

/// The number of input pages.
pub(crate) fn pages(layout: &Layout) -> u64
    ensures value { result ≡ pages_below (layout_of layout.now).depth }
    ensures low { result ≤ 2 ^ 62 }
{
    layout.geometry.pages()
}

/// The first page that a tree maps to the frame in the state.
pub(crate) fn page_of(layout: &Layout, tree: &Tree, state: State, frame: u64) -> Option<u64>
    requires { IsKeptTree tree.now }
    ensures value { result ≡ page_of_map (layout_of layout.now) (map_of tree.now.runs.items) state frame }
    ensures low { IfSome result (λ page. page < 2 ^ 62) }
{
    match page_in(tree.runs.as_slice(), state, frame) {
        Some(page) => {
            if page < pages(layout) {
                Some(page)
            } else {
                None
            }
        }
        None => None,
    }
}

/// Whether a block may have a table in trees of the layout, the root's among them.
pub(crate) fn has_place(layout: &Layout, block: Block) -> bool
    ensures { result ≡ has_place_of (layout_of layout.now).depth block }
{
    let root = u64::from(layout.geometry.depth()) + 1;
    block.0 >= 1 && block.0 <= root && block.1 < 1 << (9 * (root - block.0))
}

/// Whether a table that counts is in its place and has the frame.
fn is_table_with(layout: &Layout, tables: &[Table], frame: u64, table: Table) -> bool
    ensures { result ≡ is_table_with_of (layout_of layout.now).depth tables.now frame table }
{
    has_place(layout, table.block) && table_at(tables, table.block) == Some(frame)
}

/// Whether it is the frame of a table of a tree, the root's among them.
pub(crate) fn is_table_frame(layout: &Layout, tree: &Tree, frame: u64) -> bool
    ensures { result ≡ is_table_frame_of (layout_of layout.now) (tree_in_lists tree.now) frame }
{
    has_table(layout, tree.tables.as_slice(), frame)
}

/// Whether a table that counts has the frame.
fn has_table(layout: &Layout, tables: &[Table], frame: u64) -> bool
    ensures { result ≡ any_table_with (layout_of layout.now).depth tables.now frame }
{
    for table in tables {
        if is_table_with(layout, tables, frame, *table) {
            return true;
        }
    }
    false
}

/// Whether a frame is free in a pool.
pub(crate) fn is_free(free: &[u64], frame: u64) -> bool
    ensures { result ≡ is_free_of free.now frame }
{
    for own in free {
        if *own == frame {
            return true;
        }
    }
    false
}

/// Whether a frame is one of a hand.
pub(crate) fn is_in_hand(hand: Option<PageRange>, frame: u64) -> bool
    ensures { result ≡ is_in_hand_of hand frame }
{
    match hand {
        Some(range) => range.contains(Page(frame)),
        None => false,
    }
}
