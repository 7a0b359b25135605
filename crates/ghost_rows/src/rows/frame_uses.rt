//! Uses of frames: pools, tables and hands.
ghost use Rattle.std.specs.Prelude.{◌≡◌, ℕ, ◌+◌, ◌-◌, ◌<◌, ◌≤◌, ◌||◌, ◌==◌, Decides, IfOk, OnOk, None, length, if◌then◌else◌};
ghost use Rattle.page_state.specs.LayoutView.{layout_of};
ghost use Rattle.page_state.specs.Regions.{is_in_range};
ghost use Rattle.page_state.specs.Rows.{HasPageBelow};
ghost use Rattle.reference_model.specs.model.Owner.{is_frame, is_free, is_in_hand, is_table_frame};
ghost use Rattle.run_list.specs.Runs.{AreInReach};
ghost use Rattle.ghost_spec.specs.Found.{has_place as has_place_of, any_table_with};
ghost use Rattle.ghost_trees.specs.Trees.{table_of, tree_in_lists};
ghost use Rattle.ghost_rows.specs.RowsLaid.{HasLowRows, IsLaidOverLow, AreUsed, AreTogether, is_pool_frame, is_shared_frame, hands_use, guests_use, any_use};
ghost use Rattle.ghost_spec.specs.Views.{shared_in_lists};

use super::overlay::lay;
use ghost_spec::cpu::GhostCpu;
use ghost_spec::parts::GhostGuest;
use ghost_spec::shared::Shared;
use ghost_trees::blocks::Block;
use ghost_trees::tree::{Table, Tree, table_at};
use page_state::{Layout, Owner, Page, PageRange, Row, Usage};
use run_list::RunList;
use std::alloc::{AllocError, Global};

/// All memory frames are below this one.
const FRAMES: u64 = 1 << 26;

/// The frames of a range that may be memory get a use.
fn use_range(rows: &mut RunList<Row>, frames: PageRange, usage: Usage) -> Result<(), AllocError>
    requires reach { AreInReach HasPageBelow rows.old.runs }
    ensures map { OnOk result (AreUsed rows.old.runs rows.new.runs (is_in_range frames) usage) }
    ensures reach { AreInReach HasPageBelow rows.new.runs }
{
    if frames.first.0 >= FRAMES {
        return Ok(());
    }
    let low = PageRange {
        first: frames.first,
        count: frames.count.min(FRAMES - frames.first.0),
    };
    let row = Row {
        owner: Owner(0),
        lent: None,
        usage,
    };
    lay(rows, low, Some(row))?;
    Ok(())
}

/// Whether a frame comes right after another.
fn follows(frame: u64, next: u64) -> bool
    ensures { Decides result (next ≡ frame + 1) }
{
    frame < next && next - frame == 1
}

/// The place from which on the frames before a place of a list follow one another.
fn start_of(frames: &[u64], end: usize) -> usize
    requires some { 0 < end }
    requires within { end ≤ length frames.now }
    ensures before { result < end }
    ensures together { AreTogether frames.now result end }
{
    let mut start = end - 1;
    while start > 0 && follows(frames[start - 1], frames[start]) {
        start -= 1;
    }
    start
}

/// The frames of a list get a use. Those that follow one another get it together.
fn use_frames(rows: &mut RunList<Row>, frames: &[u64], usage: Usage) -> Result<(), AllocError>
    requires reach { AreInReach HasPageBelow rows.old.runs }
    ensures map { OnOk result (AreUsed rows.old.runs rows.new.runs (is_free frames.now) usage) }
    ensures reach { AreInReach HasPageBelow rows.new.runs }
{
    let mut end = frames.len();
    while end > 0 {
        let start = start_of(frames, end);
        let together = PageRange {
            first: Page(frames[start]),
            count: (end - start) as u64,
        };
        use_range(rows, together, usage)?;
        end = start;
    }
    Ok(())
}

/// Whether a block may have a table in trees of the layout, the root's among them.
fn has_place(layout: &Layout, block: Block) -> bool
    ensures { result ≡ has_place_of (layout_of layout.now).depth block }
{
    let root = u64::from(layout.geometry.depth()) + 1;
    block.0 >= 1 && block.0 <= root && block.1 < 1 << (9 * (root - block.0))
}

/// The frame of a table that counts: the first of its block, if trees have such a block.
fn frame_at(layout: &Layout, tables: &[Table], block: Block) -> Option<u64>
    ensures { result
        ≡ (if has_place_of (layout_of layout.now).depth block then table_of tables.now block
        else None) }
{
    if has_place(layout, block) {
        table_at(tables, block)
    } else {
        None
    }
}

/// Puts a frame, if there is one, at the end of a list.
fn push_found(frames: &mut Vec<u64>, frame: Option<u64>) -> Result<(), AllocError>
    ensures { OnOk result
        ((f : ℕ)
        → is_free frames.new.items f ≡ (is_free frames.old.items f || is_frame f frame)) }
{
    if let Some(frame) = frame {
        frames.push(frame)?;
    }
    Ok(())
}

/// Adds the frames of the tables that count to a list.
fn add_tables(frames: &mut Vec<u64>, layout: &Layout, tables: &[Table]) -> Result<(), AllocError>
    ensures { OnOk result
        ((f : ℕ)
        → is_free frames.new.items f
        ≡ (is_free frames.old.items f
        || any_table_with (layout_of layout.now).depth tables.now f)) }
{
    for table in tables {
        push_found(frames, frame_at(layout, tables, table.block))?;
    }
    Ok(())
}

/// The frames of a list get a use. They are put in order first, so that those that follow one another get it together.
fn use_sorted(rows: &mut RunList<Row>, frames: Vec<u64>, usage: Usage) -> Result<(), AllocError>
    requires reach { AreInReach HasPageBelow rows.old.runs }
    ensures map { OnOk result (AreUsed rows.old.runs rows.new.runs (is_free frames.items) usage) }
    ensures reach { AreInReach HasPageBelow rows.new.runs }
{
    let mut frames = frames;
    frames.sort_unstable();
    use_frames(rows, frames.as_slice(), usage)?;
    Ok(())
}

/// The frames of the tables that count get a use.
#[inline(always)]
fn use_tables(
    alloc: Global,
    layout: &Layout,
    rows: &mut RunList<Row>,
    tables: &[Table],
    usage: Usage,
) -> Result<(), AllocError>
    requires reach { AreInReach HasPageBelow rows.old.runs }
    ensures map { OnOk result
        (AreUsed rows.old.runs rows.new.runs
        (any_table_with (layout_of layout.now).depth tables.now) usage) }
    ensures reach { AreInReach HasPageBelow rows.new.runs }
{
    if tables.is_empty() {
        return Ok(());
    }
    let mut frames = Vec::with_capacity(alloc, tables.len())?;
    add_tables(&mut frames, layout, tables)?;
    use_sorted(rows, frames, usage)?;
    Ok(())
}

/// The frames of a tree's tables get a use.
#[inline(always)]
fn use_tree(
    alloc: Global,
    layout: &Layout,
    rows: &mut RunList<Row>,
    tree: &Tree,
    usage: Usage,
) -> Result<(), AllocError>
    requires reach { AreInReach HasPageBelow rows.old.runs }
    ensures map { OnOk result
        (AreUsed rows.old.runs rows.new.runs
        (is_table_frame (layout_of layout.now) (tree_in_lists tree.now)) usage) }
    ensures reach { AreInReach HasPageBelow rows.new.runs }
{
    use_tables(alloc, layout, rows, tree.tables.as_slice(), usage)?;
    Ok(())
}

/// The frames of a pool and of a tree's tables get a use.
#[inline(always)]
fn use_pool(
    alloc: Global,
    layout: &Layout,
    rows: &mut RunList<Row>,
    free: &[u64],
    tree: &Tree,
    usage: Usage,
) -> Result<(), AllocError>
    requires reach { AreInReach HasPageBelow rows.old.runs }
    ensures map { OnOk result
        (AreUsed rows.old.runs rows.new.runs
        (is_pool_frame (layout_of layout.now) free.now (tree_in_lists tree.now)) usage) }
    ensures reach { AreInReach HasPageBelow rows.new.runs }
{
    use_tree(alloc, layout, rows, tree, usage)?;
    use_frames(rows, free, usage)
}

/// The frames of a hand get a use.
fn use_hand(
    rows: &mut RunList<Row>,
    hand: Option<PageRange>,
    usage: Usage,
) -> Result<(), AllocError>
    requires reach { AreInReach HasPageBelow rows.old.runs }
    ensures map { OnOk result (AreUsed rows.old.runs rows.new.runs (is_in_hand hand) usage) }
    ensures reach { AreInReach HasPageBelow rows.new.runs }
{
    match hand {
        Some(frames) => use_range(rows, frames, usage),
        None => Ok(()),
    }
}

/// The frames of hands are in the hand of the first CPU that has them.
fn hands(alloc: Global, cpus: &[GhostCpu]) -> Result<RunList<Row>, AllocError>
    ensures map { IfOk result (λ r. HasLowRows r.runs (hands_use cpus.now)) }
    ensures reach { IfOk result (λ r. AreInReach HasPageBelow r.runs) }
{
    let mut rows = RunList::new(alloc);
    for i in (0..cpus.len()).rev() {
        use_hand(&mut rows, cpus[i].hand, Usage::InHand(i as u64))?;
    }
    Ok(rows)
}

/// The frames of the guests' pools and tables are of the pool of the first guest that has them.
fn use_pools(
    alloc: Global,
    layout: &Layout,
    rows: &mut RunList<Row>,
    guests: &[GhostGuest],
) -> Result<(), AllocError>
    requires reach { AreInReach HasPageBelow rows.old.runs }
    ensures map { OnOk result
        (IsLaidOverLow rows.old.runs rows.new.runs
        (guests_use (layout_of layout.now) guests.now)) }
    ensures reach { AreInReach HasPageBelow rows.new.runs }
{
    for v in (0..guests.len()).rev() {
        let guest = &guests[v];
        use_pool(
            alloc,
            layout,
            rows,
            guest.free.as_slice(),
            &guest.tree,
            Usage::VmPool(v as u64),
        )?;
    }
    Ok(())
}

/// The frames of the shared pool, and of the tables of the host's tree and the hypervisor's, are of the shared pool.
fn use_shared(
    alloc: Global,
    layout: &Layout,
    rows: &mut RunList<Row>,
    shared: &Shared,
) -> Result<(), AllocError>
    requires reach { AreInReach HasPageBelow rows.old.runs }
    ensures map { OnOk result
        (AreUsed rows.old.runs rows.new.runs
        (is_shared_frame (layout_of layout.now)
        (shared_in_lists shared.now)) Usage.SharedPool) }
    ensures reach { AreInReach HasPageBelow rows.new.runs }
{
    let mut frames = Vec::new(alloc);
    add_tables(&mut frames, layout, shared.host.tables.as_slice())?;
    add_tables(&mut frames, layout, shared.hyp.tables.as_slice())?;
    use_sorted(rows, frames, Usage::SharedPool)?;
    use_frames(rows, shared.free.as_slice(), Usage::SharedPool)?;
    Ok(())
}

/// The use of each frame: that of the shared pool before those of guests, and these before hands.
pub(crate) fn all_uses(
    alloc: Global,
    layout: &Layout,
    shared: &Shared,
    guests: &[GhostGuest],
    cpus: &[GhostCpu],
) -> Result<RunList<Row>, AllocError>
    ensures map { IfOk result
        (λ r. HasLowRows r.runs
        (any_use (layout_of layout.now) (shared_in_lists shared.now) guests.now cpus.now)) }
    ensures reach { IfOk result (λ r. AreInReach HasPageBelow r.runs) }
{
    let mut rows = hands(alloc, cpus)?;
    use_pools(alloc, layout, &mut rows, guests)?;
    use_shared(alloc, layout, &mut rows, shared)?;
    Ok(rows)
}
