//! Kept rows, compared with the lists' facts: a run as a whole if it is annotated, or lent, or neither, from its first
//! frame to its last; else piece by piece.
ghost use Rattle.std.specs.Prelude.{◌≡◌, ◌↔◌, ◌≤◌, true, false, All, IsTrue, drop};
ghost use Rattle.page_state.specs.Rows.{advance_row, HasPageBelow};
ghost use Rattle.run_list.specs.Runs.{run_end, InReach, IsCoarsest, AreInReach, StartsFrom};
ghost use Rattle.ghost_rows.specs.ListedRows.{lender, row_with, AreReached, AreCarried, AreNear, AreSteady, IsAnnotatedOn, IsLentOn, IsOn, IsPassed, IsListedAs};

use super::pieces::{Lists, Stands, Steady, is_of_host};
use page_state::{Lent, Owner, PageRange, Row};
use run_list::{Advance, Run};

/// How far the comparison has come, at a frame.
#[derive(Clone, Copy)]
pub(crate) struct Near {
    /// The place in each list.
    stands: Stands,
    /// A frame: from the current frame of the lists up to this, none is shared and none in use.
    quiet: u64,
}

impl Near {
    /// In front of all runs, and of each frame.
    const FIRST: Near = Near {
        stands: Stands::FIRST,
        quiet: 0,
    };
}

/// Whether the lists say of each frame of a run what the run has there. If they do, they go on to its end.
fn are_pieces_listed(lists: &Lists, stands: &mut Stands, run: &Run<Row>) -> bool
    requires lists { AreReached lists.now }
    requires run { InReach HasPageBelow run.now }
    requires stands { AreCarried run.now.pages.first.0 stands.old lists.now }
    ensures told { IsTrue result ↔ IsListedAs lists.now run.now }
    ensures stands { IsTrue result → AreCarried (run_end run.now) stands.new lists.now }
{
    let first = run.pages.first.0;
    let end = first + run.pages.count;
    let mut low = first;
    while low < end {
        let high = lists.look(stands, low, end);
        if lists.row(stands, low) != run.value.advanced(low - first) {
            return false;
        }
        low = high;
    }
    true
}

/// Whether no run of a list, from a place on, begins before a frame.
#[inline(always)]
fn is_clear(runs: &[Run<Row>], place: usize, end: u64) -> bool
    ensures { IsTrue result ↔ StartsFrom end (drop place runs.now) }
{
    place >= runs.len() || end <= runs[place].pages.first.0
}

/// Whether the run of a list at a place has these frames and no others.
#[inline(always)]
fn is_on(runs: &[Run<Row>], place: usize, pages: PageRange) -> bool
    ensures { IsTrue result ↔ IsOn pages place runs.now }
{
    if place >= runs.len() {
        return false;
    }
    let own = runs[place].pages;
    own.first.0 == pages.first.0 && own.count == pages.count
}

/// The owner of a frame that is lent and not annotated: the sharer if the host borrows it, else the host.
#[inline(always)]
fn lender_of(lent: Option<Lent>, sharer: Owner) -> Owner
    ensures { result.0 ≡ lender lent sharer.0 }
{
    if is_of_host(lent) { sharer } else { Owner(0) }
}

/// Whether a row has this owner, this loan, and this use.
#[tactic(auto, using(page_state::proofs::Equality::rows_tell))]
#[inline(always)]
fn is_row(row: Row, owner: Owner, lent: Option<Lent>, steady: Steady) -> bool
    ensures { IsTrue result ↔ (row ≡ row_with owner.0 lent steady.usage) }
{
    let other = Row {
        owner,
        lent,
        usage: steady.usage,
    };
    row == other
}

/// Whether a run has exactly the frames of the annotation at a place, and the row that follows from it.
#[inline(always)]
fn is_annotated_on(annotated: &[Run<Row>], place: usize, steady: Steady, run: &Run<Row>) -> bool
    ensures { IsTrue result ↔ IsAnnotatedOn run.now steady place annotated.now }
{
    if !is_on(annotated, place, run.pages) {
        return false;
    }
    is_row(run.value, annotated[place].value.owner, None, steady)
}

/// Whether a run has exactly the frames of the loan at a place, and the row that follows from it.
#[inline(always)]
fn is_lent_on(lent: &[Run<Row>], place: usize, steady: Steady, run: &Run<Row>) -> bool
    ensures { IsTrue result ↔ IsLentOn run.now steady place lent.now }
{
    if !is_on(lent, place, run.pages) {
        return false;
    }
    let to = lent[place].value.lent;
    is_row(run.value, lender_of(to, steady.sharer), to, steady)
}

/// Whether the row of a run as a whole follows from the lists: none of its frames is annotated or lent, or one run of
/// either list has exactly these frames, and their sharer and use are known up to its end. If so, the lists go on to
/// its end; else they stay.
#[inline(always)]
fn is_listed_whole(lists: &Lists, stands: &mut Stands, steady: Steady, run: &Run<Row>) -> bool
    requires run { InReach HasPageBelow run.now }
    requires stands { AreCarried run.now.pages.first.0 stands.old lists.now }
    requires steady { AreSteady run.now.pages.first.0 steady lists.now }
    ensures passed { result ≡ true → IsPassed lists.now run.now stands.new }
    ensures stays { result ≡ false → stands.new ≡ stands.old }
{
    let end = run.pages.first.0 + run.pages.count;
    if steady.until < end {
        return false;
    }
    let annotated = lists.annotated.runs();
    let lent = lists.lent.runs();
    let owner_place = stands.annotated.place;
    let loan_place = stands.lent.place;
    if is_clear(annotated, owner_place, end) {
        if is_clear(lent, loan_place, end) {
            return is_row(run.value, Owner(0), None, steady);
        }
        if !is_lent_on(lent, loan_place, steady, run) {
            return false;
        }
        stands.lent.place = loan_place + 1;
        return true;
    }
    if !is_clear(lent, loan_place, end) {
        return false;
    }
    if !is_annotated_on(annotated, owner_place, steady, run) {
        return false;
    }
    stands.annotated.place = owner_place + 1;
    true
}

/// Whether the lists give each frame of a run the row of the run. If they do, they go on to its end. The sharer and the
/// use of its frames are looked up first.
#[inline(never)]
fn is_listed_anew(lists: &Lists, near: &mut Near, run: &Run<Row>) -> bool
    requires lists { AreReached lists.now }
    requires run { InReach HasPageBelow run.now }
    requires near { AreNear run.now.pages.first.0 near.old lists.now }
    ensures told { IsTrue result ↔ IsListedAs lists.now run.now }
    ensures near { IsTrue result → AreNear (run_end run.now) near.new lists.now }
{
    let steady = lists.steady(&mut near.stands, run.pages.first.0);
    near.quiet = steady.quiet();
    if is_listed_whole(lists, &mut near.stands, steady, run) {
        return true;
    }
    if !are_pieces_listed(lists, &mut near.stands, run) {
        return false;
    }
    lists.go_on(&mut near.stands, run.pages.first.0 + run.pages.count);
    true
}

/// The same. Most runs can be compared as a whole, and none of their frames is shared or used.
#[inline(always)]
fn is_run_listed(lists: &Lists, near: &mut Near, run: &Run<Row>) -> bool
    requires lists { AreReached lists.now }
    requires run { InReach HasPageBelow run.now }
    requires near { AreNear run.now.pages.first.0 near.old lists.now }
    ensures told { IsTrue result ↔ IsListedAs lists.now run.now }
    ensures near { IsTrue result → AreNear (run_end run.now) near.new lists.now }
{
    let quiet = Steady::quiet_to(near.quiet);
    if is_listed_whole(lists, &mut near.stands, quiet, run) {
        return true;
    }
    is_listed_anew(lists, near, run)
}

/// Whether the lists give each frame its row. The place in each list goes on with the runs, so that no list is
/// searched.
pub(crate) fn are_listed(lists: &Lists, rows: &[Run<Row>]) -> bool
    requires lists { AreReached lists.now }
    requires coarsest { IsCoarsest advance_row rows.now }
    requires reach { AreInReach HasPageBelow rows.now }
    ensures { IsTrue result ↔ All (IsListedAs lists.now) rows.now }
{
    let mut near = Near::FIRST;
    for i in 0..rows.len() {
        if !is_run_listed(lists, &mut near, &rows[i]) {
            return false;
        }
    }
    true
}
