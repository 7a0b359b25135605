//! Compares the kept state with the one found from scratch. It takes no memory.
ghost use Rattle.std.specs.Prelude.{◌≡◌, ℕ, ◌↔◌, All, None, IfSome, length};
ghost use Rattle.page_state.specs.Rows.{HasPageBelow};
ghost use Rattle.run_list.specs.Runs.{AreInReach};
ghost use Rattle.ghost_trees.specs.KeptTrees.{IsKeptTree};
ghost use Rattle.ghost_spec.specs.States.{contents_in};
ghost use Rattle.ghost_spec.specs.Views.{row_in};
ghost use Rattle.ghost_judge.specs.Audits.{AreMapsKept, AuditAgrees, IsFirstDifference};
ghost use Rattle.ghost_judge.specs.inner.Found.{IsFound, IsFoundInTrees, IsRowDifference, IsGuestDifference, guest_map};

use crate::difference::first_apart;
use crate::disagreement::{Disagreement, TreeOf};
use crate::rows::{PLAIN_ROW, first_row_apart};
use ghost_spec::lists::GhostLists;
use ghost_spec::parts::GhostGuest;
use ghost_spec::state::Ghost;
use ghost_trees::runs::at;
use ghost_trees::tree::Tree;
use page_state::{Page, Row, Run, Target};
use run_list::RunList;

/// The first difference of two states in the host's map, the hypervisor's, those of the guests by slot, and the owner
/// rows: the least page or frame of it, and the value of each state there.
pub fn audit(kept: &Ghost, walked: &Ghost) -> Option<Disagreement>
    ensures none { (result ≡ None) ↔ AuditAgrees (contents_in kept.now) (contents_in walked.now) }
    ensures first { IfSome result (IsFirstDifference (contents_in kept.now) (contents_in walked.now)) }
{
    audit_lists(kept.lists(), walked.lists())
}

/// As `audit`, for lists that may not be states, such as those of poked trees.
pub fn audit_lists(kept: &GhostLists, walked: &GhostLists) -> Option<Disagreement>
    requires kept { AreMapsKept kept.now }
    requires walked { AreMapsKept walked.now }
    ensures none { (result ≡ None) ↔ AuditAgrees (contents_in kept.now) (contents_in walked.now) }
    ensures first { IfSome result (IsFirstDifference (contents_in kept.now) (contents_in walked.now)) }
{
    let host = in_trees(TreeOf::Host, &kept.shared.host, &walked.shared.host);
    if host.is_some() {
        return host;
    }
    let hyp = in_trees(TreeOf::Hyp, &kept.shared.hyp, &walked.shared.hyp);
    if hyp.is_some() {
        return hyp;
    }
    let guest = in_guests(kept.guests.as_slice(), walked.guests.as_slice());
    if guest.is_some() {
        return guest;
    }
    in_rows(&kept.shared.rows, &walked.shared.rows)
}

/// The first difference of two maps.
// inlined: most guests are Empty, and map nothing
#[inline(always)]
pub(crate) fn in_trees(tree: TreeOf, kept: &Tree, walked: &Tree) -> Option<Disagreement>
    requires kept { IsKeptTree kept.now }
    requires walked { IsKeptTree walked.now }
    ensures { IsFoundInTrees tree kept.now walked.now result }
{
    if kept.runs.is_empty() && walked.runs.is_empty() {
        return None;
    }
    match first_apart::<Target, Run>(kept.runs.as_slice(), walked.runs.as_slice()) {
        Some(page) => Some(Disagreement::Map {
            tree,
            page,
            kept: at(kept.runs.as_slice(), Page(page)),
            walked: at(walked.runs.as_slice(), Page(page)),
        }),
        None => None,
    }
}

/// The first difference of the guests' maps, by slot.
pub(crate) fn in_guests(kept: &[GhostGuest], walked: &[GhostGuest]) -> Option<Disagreement>
    requires kept { All (λ g. IsKeptTree g.tree) kept.now }
    requires walked { All (λ g. IsKeptTree g.tree) walked.now }
    requires kept_count { length kept.now ≡ 64 }
    requires walked_count { length walked.now ≡ 64 }
    ensures { IsFound ((v : ℕ) → guest_map kept.now v ≡ guest_map walked.now v)
        (IsGuestDifference kept.now walked.now) result }
{
    for v in 0..64usize {
        let guest = in_trees(TreeOf::Guest(v as u64), &kept[v].tree, &walked[v].tree);
        if guest.is_some() {
            return guest;
        }
    }
    None
}

/// The first difference of the owner rows.
pub(crate) fn in_rows(kept: &RunList<Row>, walked: &RunList<Row>) -> Option<Disagreement>
    requires kept { AreInReach HasPageBelow kept.now.runs }
    requires walked { AreInReach HasPageBelow walked.now.runs }
    ensures { IsFound (row_in kept.now.runs ≡ row_in walked.now.runs)
        (IsRowDifference (row_in kept.now.runs) (row_in walked.now.runs)) result }
{
    match first_row_apart(kept.runs(), walked.runs()) {
        Some(frame) => Some(Disagreement::Owner {
            frame,
            kept: row_of(kept, frame),
            walked: row_of(walked, frame),
        }),
        None => None,
    }
}

/// The row of a frame; the plain row if it has none.
fn row_of(rows: &RunList<Row>, frame: u64) -> Row
    ensures { result ≡ row_in rows.now.runs frame }
{
    match rows.at(Page(frame)) {
        Some(row) => row,
        None => PLAIN_ROW,
    }
}
