//! Ranges of pages that the report leaves out.
ghost use Rattle.std.specs.Prelude.{◌≡◌, IfOk};
ghost use Rattle.std.specs.List.{filter, list_any};
ghost use Rattle.image_dump.specs.Skips.{covers, is_left};

use run_list::Run;
use std::alloc::{AllocError, Global};
use walked_tables::Said;

/// Pages of a tree that the report leaves out: a run that lies in them claims nothing.
#[derive(Clone, Copy, PartialEq)]
pub struct Skip {
    /// The tree.
    pub tree: u64,
    /// The first page.
    pub first: u64,
    /// The last page.
    pub last: u64,
}

/// Whether a range covers a run of a tree.
fn is_covered(skip: &Skip, tree: u64, run: &Run<Said>) -> bool
    ensures { result ≡ covers tree run.now skip.now }
{
    let first = run.pages.first.0;
    skip.tree == tree
        && skip.first <= first
        && first <= skip.last
        && run.pages.count <= (skip.last - first).saturating_add(1)
}

/// Whether some range covers a run of a tree.
fn is_skipped(skips: &[Skip], tree: u64, run: &Run<Said>) -> bool
    ensures { result ≡ list_any (covers tree run.now) skips.now }
{
    skips.iter().any(|skip| is_covered(skip, tree, run))
}

/// Whether a run is reported.
fn is_told(skips: &[Skip], tree: u64, run: &Run<Said>) -> bool
    ensures { result ≡ is_left skips.now tree run.now }
{
    !is_skipped(skips, tree, run)
}

/// The runs of a tree in the report.
pub(crate) fn left_runs(
    alloc: Global,
    skips: &[Skip],
    tree: u64,
    runs: &[Run<Said>],
) -> Result<Vec<Run<Said>>, AllocError>
    ensures { IfOk result (λ left. left.items ≡ filter (is_left skips.now tree) runs.now) }
{
    let mut left = Vec::new(alloc);
    for i in 0..runs.len() {
        if is_told(skips, tree, &runs[i]) {
            left.push(runs[i])?;
        }
    }
    Ok(left)
}
