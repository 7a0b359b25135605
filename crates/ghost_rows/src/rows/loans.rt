//! Annotations of frames, and loans: which component maps a frame first, and at which page.
ghost use Rattle.std.specs.Prelude.{◌≡◌, ℕ, ◌+◌, ◌-◌, ◌<◌, ◌≤◌, ◌^◌, IfOk, IfSome, OnOk, is_some, length, min};
ghost use Rattle.std.specs.List.{list_any};
ghost use Rattle.std.specs.Option.{ForSome};
ghost use Rattle.page_state.specs.Entries.{entry_of_target};
ghost use Rattle.page_state.specs.Geometries.{pages_below};
ghost use Rattle.page_state.specs.LayoutView.{layout_of};
ghost use Rattle.page_state.specs.Regions.{end_of};
ghost use Rattle.page_state.specs.Rows.{advance_row, HasPageBelow};
ghost use Rattle.page_state.specs.Runs.{map_of, IsCoarsest};
ghost use Rattle.run_list.specs.Runs.{run_map, AreInReach, EndBefore};
ghost use Rattle.run_list.specs.View.{IsKept};
ghost use Rattle.ghost_trees.specs.KeptTrees.{IsKeptTree};
ghost use Rattle.ghost_trees.specs.Small.{IsSmall, AreSmall};
ghost use Rattle.ghost_trees.specs.Trees.{tree_in_lists};
ghost use Rattle.ghost_rows.specs.RowsLaid.{HasRows, IsLaidOver, run_loan, runs_loan, map_loan, annotated_row, annotated_end, annotation_on, loan_row, maps_in, run_below, guests_loan, any_loan, run_frames, next_above, last_above, HaveKeptTrees};

use super::overlay::{lay, lay_all, put_behind};
use ghost_spec::parts::GhostGuest;
use ghost_trees::tree::Tree;
use page_state::{Layout, Lent, Owner, Page, PageRange, Row, Run, State, Target, Usage};
use run_list::{Run as RowRun, RunList};
use std::alloc::{AllocError, Global};

/// The row of a frame that is annotated with an owner.
fn annotation(target: Target) -> Option<Row>
    ensures { result ≡ annotated_row (entry_of_target target) }
{
    match target {
        Target::Annotated(owner) => Some(Row {
            owner,
            lent: None,
            usage: Usage::Plain,
        }),
        _ => None,
    }
}

/// The pages of an annotated run get its owner. They come after those of all rows, which end at `high` or before it.
/// Returns the page after them, or `high` if the run isn't annotated.
#[inline(always)]
fn annotate(rows: &mut Vec<RowRun<Row>>, high: u64, run: Run) -> Result<u64, AllocError>
    requires run { IsSmall run }
    requires some { 0 < run.pages.count }
    requires kept { IsKept advance_row HasPageBelow rows.old.items }
    requires behind { EndBefore (high + 1) rows.old.items }
    requires order { high ≤ run.pages.first.0 }
    ensures end { IfOk result (λ n. n ≡ annotated_end high run) }
    ensures map { IfOk result (λ n. IsLaidOver rows.old.items rows.new.items (annotation_on run)) }
    ensures kept { IfOk result (λ n. IsKept advance_row HasPageBelow rows.new.items) }
    ensures behind { IfOk result (λ n. EndBefore (n + 1) rows.new.items) }
{
    let Some(row) = annotation(run.target) else {
        return Ok(high);
    };
    put_behind(rows, high, run.pages, row)?;
    Ok(run.pages.first.0 + run.pages.count)
}

/// The owners of the pages that are annotated in runs that are in order.
pub(crate) fn annotated(alloc: Global, runs: &[Run]) -> Result<RunList<Row>, AllocError>
    requires small { AreSmall runs.now }
    requires coarsest { IsCoarsest runs.now }
    ensures map { IfOk result
        (λ r. (f : ℕ) → run_map advance_row r.runs f ≡ annotated_row (map_of runs.now f)) }
    ensures reach { IfOk result (λ r. AreInReach HasPageBelow r.runs) }
{
    let mut rows = Vec::with_capacity(alloc, runs.len())?;
    let mut high = 0;
    for i in 0..runs.len() {
        high = annotate(&mut rows, high, runs[i])?;
    }
    Ok(RunList::of(rows))
}

/// The row of a frame that is lent to the component of a number, at its page.
fn loan(number: u64, page: u64) -> Row
    ensures { result ≡ loan_row number page }
{
    Row {
        owner: Owner(0),
        lent: Some(Lent {
            owner: Owner(number),
            page,
        }),
        usage: Usage::Plain,
    }
}

/// How many pages of a range are below a limit.
fn count_before(pages: PageRange, limit: u64) -> u64
    ensures { result ≡ min pages.count (limit - pages.first.0) }
{
    pages.count.min(limit.saturating_sub(pages.first.0))
}

/// The frames that a run maps in the state at input pages.
#[tactic(auto, using(page_state::proofs::Equality::states_test))]
fn frames_of(layout: &Layout, state: State, run: Run) -> Option<PageRange>
    requires { IsSmall run }
    ensures frames { result ≡ run_frames state (run_below (pages_below (layout_of layout.now).depth) run) }
    ensures low { ForSome result (λ r. end_of r ≤ 2 ^ 63) }
    ensures within { ForSome result (λ r. r.count ≤ run.pages.count) }
{
    let Target::Leaf {
        frame,
        state: own,
        ..
    } = run.target
    else {
        return None;
    };
    if own != state {
        return None;
    }
    Some(PageRange {
        first: Page(frame.0),
        count: count_before(run.pages, layout.geometry.pages()),
    })
}

/// The frames that a run maps in the state at input pages are lent to the component of a number.
fn lend_run(
    layout: &Layout,
    rows: &mut RunList<Row>,
    number: u64,
    state: State,
    run: Run,
) -> Result<(), AllocError>
    requires run { IsSmall run }
    requires reach { AreInReach HasPageBelow rows.old.runs }
    ensures map { OnOk result
        (IsLaidOver rows.old.runs rows.new.runs
        (run_loan (layout_of layout.now) number state run)) }
    ensures reach { AreInReach HasPageBelow rows.new.runs }
{
    if let Some(frames) = frames_of(layout, state, run) {
        lay(rows, frames, Some(loan(number, run.pages.first.0)))?;
    }
    Ok(())
}

/// The frames that runs map in the state are lent to the component of a number, each at the first page that maps it: that
/// of the first run is written last.
fn lend_back(
    layout: &Layout,
    rows: &mut RunList<Row>,
    number: u64,
    runs: &[Run],
    state: State,
) -> Result<(), AllocError>
    requires small { AreSmall runs.now }
    requires reach { AreInReach HasPageBelow rows.old.runs }
    ensures map { OnOk result
        (IsLaidOver rows.old.runs rows.new.runs
        (runs_loan (layout_of layout.now) number state runs.now)) }
    ensures reach { AreInReach HasPageBelow rows.new.runs }
{
    for i in (0..runs.len()).rev() {
        lend_run(layout, rows, number, state, runs[i])?;
    }
    Ok(())
}

/// The frames that a run maps in the state are lent to the component of a number, after those of all rows, which end
/// before `high`. Returns the frame after them, or `high` if the run maps none; None if they begin before that.
fn lend_next(
    layout: &Layout,
    rows: &mut Vec<RowRun<Row>>,
    high: u64,
    number: u64,
    state: State,
    run: Run,
) -> Result<Option<u64>, AllocError>
    requires run { IsSmall run }
    requires kept { IsKept advance_row HasPageBelow rows.old.items }
    requires behind { EndBefore (high + 1) rows.old.items }
    ensures end { IfOk result
        (λ o. o
        ≡ next_above high
        (run_frames state (run_below (pages_below (layout_of layout.now).depth) run))) }
    ensures map { IfOk result
        (λ o. IfSome o
        (λ end. IsLaidOver rows.old.items rows.new.items
        (run_loan (layout_of layout.now) number state run))) }
    ensures kept { IfOk result (λ o. IsKept advance_row HasPageBelow rows.new.items) }
    ensures behind { IfOk result (λ o. IfSome o (λ end. EndBefore (end + 1) rows.new.items)) }
{
    let Some(frames) = frames_of(layout, state, run) else {
        return Ok(Some(high));
    };
    if frames.first.0 < high {
        return Ok(None);
    }
    if frames.count == 0 {
        return Ok(Some(frames.first.0));
    }
    put_behind(rows, high, frames, loan(number, run.pages.first.0))?;
    Ok(Some(frames.first.0 + frames.count))
}

/// The frames that runs in order map in the state, lent to the component of a number, each at its page. None if they
/// don't rise with the pages.
fn rising_loans(
    alloc: Global,
    layout: &Layout,
    number: u64,
    runs: &[Run],
    state: State,
) -> Result<Option<RunList<Row>>, AllocError>
    requires small { AreSmall runs.now }
    requires coarsest { IsCoarsest runs.now }
    ensures map { IfOk result
        (λ o. IfSome o
        (λ r. HasRows r.runs
        (map_loan (layout_of layout.now) number state (map_of runs.now)))) }
    ensures reach { IfOk result (λ o. IfSome o (λ r. AreInReach HasPageBelow r.runs)) }
    ensures rises { IfOk result
        (λ o. is_some o
        ≡ is_some (last_above (pages_below (layout_of layout.now).depth) state 0 runs.now)) }
{
    let mut rows = Vec::with_capacity(alloc, runs.len())?;
    let mut high = 0;
    for i in 0..runs.len() {
        let Some(end) = lend_next(layout, &mut rows, high, number, state, runs[i])? else {
            return Ok(None);
        };
        high = end;
    }
    Ok(Some(RunList::of(rows)))
}

/// The same of runs in order, each at the first page that maps it. If the frames don't rise with the pages, the loan of
/// the first run is written last.
fn lend_runs(
    alloc: Global,
    layout: &Layout,
    rows: &mut RunList<Row>,
    number: u64,
    runs: &[Run],
    state: State,
) -> Result<(), AllocError>
    requires small { AreSmall runs.now }
    requires coarsest { IsCoarsest runs.now }
    requires reach { AreInReach HasPageBelow rows.old.runs }
    ensures map { OnOk result
        (IsLaidOver rows.old.runs rows.new.runs
        (map_loan (layout_of layout.now) number state (map_of runs.now))) }
    ensures reach { AreInReach HasPageBelow rows.new.runs }
{
    match rising_loans(alloc, layout, number, runs, state)? {
        Some(lent) => lay_all(rows, lent),
        None => lend_back(layout, rows, number, runs, state),
    }
}

/// Whether a run maps frames in the state.
#[tactic(auto, using(page_state::proofs::Equality::states_test))]
fn is_in(run: &Run, state: State) -> bool
    ensures { result ≡ maps_in state run.now }
{
    match run.target {
        Target::Leaf { state: own, .. } => own == state,
        _ => false,
    }
}

/// Whether some run maps frames in the state.
fn any_in(runs: &[Run], state: State) -> bool
    ensures { result ≡ list_any (maps_in state) runs.now }
{
    runs.iter().any(|run| is_in(run, state))
}

/// The frames that a tree maps in the state are lent to the component of a number, each at the first page that maps it. A tree
/// none of whose runs maps a frame so is passed over.
// inlined: most guests are Empty, and have no runs
#[inline(always)]
fn lend_tree(
    alloc: Global,
    layout: &Layout,
    rows: &mut RunList<Row>,
    number: u64,
    tree: &Tree,
    state: State,
) -> Result<(), AllocError>
    requires kept { IsKeptTree tree.now }
    requires reach { AreInReach HasPageBelow rows.old.runs }
    ensures map { OnOk result
        (IsLaidOver rows.old.runs rows.new.runs
        (map_loan (layout_of layout.now) number state (tree_in_lists tree.now).map)) }
    ensures reach { AreInReach HasPageBelow rows.new.runs }
{
    let runs = tree.runs.as_slice();
    if !any_in(runs, state) {
        return Ok(());
    }
    lend_runs(alloc, layout, rows, number, runs, state)?;
    Ok(())
}

/// To which guest each frame is lent: the first that maps it in the state, at its first page that does.
pub(crate) fn guest_loans(
    alloc: Global,
    layout: &Layout,
    guests: &[GhostGuest],
    state: State,
) -> Result<RunList<Row>, AllocError>
    requires count { length guests.now ≤ 64 }
    requires kept { HaveKeptTrees guests.now }
    ensures map { IfOk result (λ r. HasRows r.runs (guests_loan (layout_of layout.now) guests.now state)) }
    ensures reach { IfOk result (λ r. AreInReach HasPageBelow r.runs) }
{
    let mut rows = RunList::new(alloc);
    for v in (0..guests.len()).rev() {
        lend_tree(
            alloc,
            layout,
            &mut rows,
            2 + v as u64,
            &guests[v].tree,
            state,
        )?;
    }
    Ok(rows)
}

/// To whom each frame is lent: the first of the host, the hypervisor and the guests that borrows it, at its first page.
pub(crate) fn all_loans(
    alloc: Global,
    layout: &Layout,
    host: &Tree,
    hyp: &Tree,
    guests: &[GhostGuest],
) -> Result<RunList<Row>, AllocError>
    requires host { IsKeptTree host.now }
    requires hyp { IsKeptTree hyp.now }
    requires count { length guests.now ≤ 64 }
    requires guests { HaveKeptTrees guests.now }
    ensures map { IfOk result
        (λ r. HasRows r.runs
        (any_loan (layout_of layout.now) (tree_in_lists host.now).map
        (tree_in_lists hyp.now).map guests.now)) }
    ensures reach { IfOk result (λ r. AreInReach HasPageBelow r.runs) }
{
    let borrowed = State::SharedBorrowed;
    let mut rows = guest_loans(alloc, layout, guests, borrowed)?;
    lend_tree(alloc, layout, &mut rows, 1, hyp, borrowed)?;
    lend_tree(alloc, layout, &mut rows, 0, host, borrowed)?;
    Ok(rows)
}
