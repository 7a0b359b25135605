//! The owner rows of a state, found from its runs, pools, tables and hands.
mod frame_uses;
mod kept;
mod loans;
mod overlay;
mod pieces;

ghost use Rattle.std.specs.Prelude.{◌≡◌, ℕ, ◌≤◌, ◌<◌, ◌^◌, ◌↔◌, true, IfOk, IsTrue, OnOk, Some, None, is_some, length, if◌then◌else◌};
ghost use Rattle.page_state.specs.Layouts.{is_memory};
ghost use Rattle.page_state.specs.LayoutView.{layout_of};
ghost use Rattle.page_state.specs.Regions.{end_of, is_in_range};
ghost use Rattle.page_state.specs.Rows.{advance_row, HasPageBelow};
ghost use Rattle.reference_model.specs.model.Owner.{row_of};
ghost use Rattle.run_list.specs.Runs.{run_map, IsCoarsest, AreInReach};
ghost use Rattle.ghost_trees.specs.KeptTrees.{IsKeptTree};
ghost use Rattle.ghost_spec.specs.States.{contents_in};
ghost use Rattle.ghost_rows.specs.RowsLaid.{HaveKeptTrees, HasRows, rows_of};
ghost use Rattle.ghost_rows.specs.ListedRows.{told, AreReached, IsRegionAdded};

use frame_uses::all_uses;
use ghost_spec::lists::GhostLists;
use kept::are_listed;
use loans::{all_loans, annotated, guest_loans};
use overlay::{lay, lay_all, put_last};
use page_state::{Layout, Page, PageRange, Region, RegionKind, Row, State};
use pieces::{Lists, Stands};
use run_list::{Run, RunList};
use std::alloc::{AllocError, Global};

/// The facts of all parts of the state about each frame.
fn lists_of(alloc: Global, state: &GhostLists) -> Result<Lists, AllocError>
    requires host { IsKeptTree state.now.shared.host }
    requires hyp { IsKeptTree state.now.shared.hyp }
    requires guests { HaveKeptTrees state.now.guests.items }
    requires guests_count { length state.now.guests.items ≡ 64 }
    requires cpus_count { length state.now.cpus.items ≡ state.now.layout.config.cpus }
    ensures told { IfOk result
        (λ x. (f : ℕ)
        → f < 2 ^ 26
        → told x f ≡ row_of (layout_of state.now.layout) (contents_in state.now) f) }
    ensures reach { IfOk result AreReached }
{
    let layout = &state.layout;
    let shared = &state.shared;
    let guests = state.guests.as_slice();
    Ok(Lists {
        annotated: annotated(alloc, shared.host.runs.as_slice())?,
        lent: all_loans(alloc, layout, &shared.host, &shared.hyp, guests)?,
        shared: guest_loans(alloc, layout, guests, State::SharedOwned)?,
        used: all_uses(alloc, layout, shared, guests, state.cpus.as_slice())?,
    })
}

/// The rows of the frames of a range, piece by piece: along a piece each list goes on as it begins.
/// The place in each list goes on with the pieces, so that no list is searched.
fn range_rows(alloc: Global, lists: &Lists, pages: PageRange) -> Result<RunList<Row>, AllocError>
    requires low { end_of pages ≤ 2 ^ 26 }
    requires lists { AreReached lists.now }
    ensures map { IfOk result
        (λ r. HasRows r.runs
        (λ f. if is_in_range pages f then Some (told lists.now f) else None)) }
    ensures reach { IfOk result (λ r. AreInReach HasPageBelow r.runs) }
{
    let end = pages.first.0 + pages.count;
    let mut low = pages.first.0;
    let mut stands = Stands::FIRST;
    let mut rows = Vec::with_capacity(alloc, lists.count())?;
    while low < end {
        let high = lists.look(&mut stands, low, end);
        let piece = PageRange {
            first: Page(low),
            count: high - low,
        };
        put_last(&mut rows, piece, lists.row(&stands, low))?;
        low = high;
    }
    Ok(RunList::of(rows))
}

/// The frames of a region get their rows if it is a region of memory, else none.
fn add_region(
    alloc: Global,
    rows: &mut RunList<Row>,
    lists: &Lists,
    region: Region,
) -> Result<(), AllocError>
    requires low { end_of region.pages ≤ 2 ^ 26 }
    requires lists { AreReached lists.now }
    requires reach { AreInReach HasPageBelow rows.old.runs }
    ensures map { OnOk result (IsRegionAdded lists.now region rows.old.runs rows.new.runs) }
    ensures reach { AreInReach HasPageBelow rows.new.runs }
{
    match region.kind {
        RegionKind::Memory => {
            let found = range_rows(alloc, lists, region.pages)?;
            lay_all(rows, found)
        }
        RegionKind::Device => {
            lay(rows, region.pages, None)?;
            Ok(())
        }
    }
}

/// The owner rows of all memory frames, found from the runs, the pools, the tables and the hands of a state. They take
/// time by the number of these, and not by that of the frames.
pub fn rows_from_scratch(alloc: Global, state: &GhostLists) -> Result<RunList<Row>, AllocError>
    requires host { IsKeptTree state.now.shared.host }
    requires hyp { IsKeptTree state.now.shared.hyp }
    requires guests { HaveKeptTrees state.now.guests.items }
    requires guests_count { length state.now.guests.items ≡ 64 }
    requires cpus_count { length state.now.cpus.items ≡ state.now.layout.config.cpus }
    ensures rows { IfOk result
        (λ r. HasRows r.runs (rows_of (layout_of state.now.layout) (contents_in state.now))) }
    ensures reach { IfOk result (λ r. AreInReach HasPageBelow r.runs) }
{
    let lists = lists_of(alloc, state)?;
    let regions = state.layout.map.regions();
    let mut rows = RunList::new(alloc);
    for i in (0..regions.len()).rev() {
        add_region(alloc, &mut rows, &lists, regions[i])?;
    }
    Ok(rows)
}

/// Memory lies below frame 2^26: this was accepted of its regions.
fn is_low_memory(layout: &Layout)
    ensures { (f : ℕ) → is_memory (layout_of layout.now) f ≡ true → f < 2 ^ 26 }
{
    let _regions = layout.map.regions();
}

/// Whether rows, one for each memory frame, are those from scratch, which `rows_from_scratch` finds. They are compared
/// with the lists' facts one by one, and no list of rows is made.
pub fn are_from_scratch(
    alloc: Global,
    state: &GhostLists,
    rows: &[Run<Row>],
) -> Result<bool, AllocError>
    requires host { IsKeptTree state.now.shared.host }
    requires hyp { IsKeptTree state.now.shared.hyp }
    requires guests { HaveKeptTrees state.now.guests.items }
    requires guests_count { length state.now.guests.items ≡ 64 }
    requires cpus_count { length state.now.cpus.items ≡ state.now.layout.config.cpus }
    requires coarsest { IsCoarsest advance_row rows.now }
    requires reach { AreInReach HasPageBelow rows.now }
    requires frames { (f : ℕ)
        → is_some (run_map advance_row rows.now f) ≡ is_memory (layout_of state.now.layout) f }
    ensures { IfOk result
        (λ b. IsTrue b
        ↔ HasRows rows.now (rows_of (layout_of state.now.layout) (contents_in state.now))) }
{
    is_low_memory(&state.layout);
    let lists = lists_of(alloc, state)?;
    Ok(are_listed(&lists, rows))
}
