//! Leaves of frames whose records say that the tree doesn't have them.
ghost use Rattle.std.specs.Prelude.{◌≡◌};
ghost use Rattle.image_findings.specs.Findings.{denial_of};

use crate::claim::claimed;
use crate::finding::Finding;
use run_list::Run;
use walked_tables::Said;

/// The finding that a frame of a run is denied, if one is.
pub fn denied(tree: u64, run: &Run<Said>, frame: Option<u64>) -> Option<Finding>
    ensures { result ≡ denial_of tree run.now frame }
{
    match (frame, claimed(tree, run)) {
        (Some(frame), Some(claim)) => Some(Finding::Denied { frame, claim }),
        (None, _) | (Some(_), None) => None,
    }
}
