//! The first frame whose owner rows differ. A frame without a row has the plain one, so runs of plain rows are passed over.
ghost use Rattle.std.specs.Prelude.{◌≡◌, ◌≤◌, MatchOption, [], drop, length};
ghost use Rattle.page_state.specs.Rows.{advance_row, HasPageBelow};
ghost use Rattle.run_list.specs.Runs.{run_map};
ghost use Rattle.run_list.specs.View.{IsKept};
ghost use Rattle.ghost_judge.specs.inner.Parted.{IsFoundApart};
ghost use Rattle.ghost_judge.specs.inner.Same.{marked, IsBegin, IsNextMarked};

use crate::difference::parted;
use page_state::{Owner, Row, Usage};
use run_list::Run;

/// The row of a frame that the host owns, shares with nobody, and has in no use.
pub(crate) const PLAIN_ROW: Row = Row {
    owner: Owner(0),
    lent: None,
    usage: Usage::Plain,
};

/// The place of the first run, from one place on, whose row isn't the plain one.
fn next_marked(runs: &[Run<Row>], from: usize) -> Option<usize>
    ensures { MatchOption result (marked (drop from runs.now) ≡ []) (IsNextMarked runs.now from) }
{
    let mut at = from;
    while at < runs.len() {
        if runs[at].value != PLAIN_ROW {
            return Some(at);
        }
        at += 1;
    }
    None
}

/// The first frame of that run.
fn begin_from(runs: &[Run<Row>], from: usize) -> Option<u64>
    ensures { IsBegin (marked (drop from runs.now)) result }
{
    match next_marked(runs, from) {
        Some(at) => Some(runs[at].pages.first.0),
        None => None,
    }
}

/// The first frame to which two lists give different rows; a plain row counts as no row.
pub(crate) fn first_row_apart(a: &[Run<Row>], b: &[Run<Row>]) -> Option<u64>
    requires a { IsKept advance_row HasPageBelow a.now }
    requires b { IsKept advance_row HasPageBelow b.now }
    ensures { IsFoundApart (run_map advance_row (marked a.now))
        (run_map advance_row (marked b.now)) result }
{
    let mut i = 0;
    let mut j = 0;
    loop {
        let Some(k) = next_marked(a, i) else {
            return begin_from(b, j);
        };
        let Some(l) = next_marked(b, j) else {
            return Some(a[k].pages.first.0);
        };
        let frame = parted(a[k], b[l]);
        if frame.is_some() {
            return frame;
        }
        i = k + 1;
        j = l + 1;
    }
}
