//! Words that say nothing, or name tables that aren't there.
ghost use Rattle.std.specs.Prelude.{◌≡◌, ◌++◌, OnOk};
ghost use Rattle.std.specs.List.{filter_map};
ghost use Rattle.image_findings.specs.Findings.{bad_word};

use crate::finding::{Finding, add};
use run_list::Run;
use std::alloc::AllocError;
use table_words::Decoded;
use walked_tables::Said;

/// The finding on the words of a run, if there is one.
fn found_in(tree: u64, run: &Run<Said>) -> Option<Finding>
    ensures { result ≡ bad_word tree run.now }
{
    let page = run.pages.first.0;
    let count = run.pages.count;
    match run.value.0 {
        Decoded::Malformed => Some(Finding::Malformed { tree, page, count }),
        Decoded::Table(frame) => Some(Finding::NoTable {
            tree,
            page,
            count,
            frame: frame.0,
        }),
        Decoded::Unmapped
        | Decoded::Annotated { .. }
        | Decoded::Poisoned
        | Decoded::Locked
        | Decoded::Cleared(_)
        | Decoded::Leaf(_) => None,
    }
}

/// Adds each run of a tree whose words say nothing, or name a table that the image doesn't have.
pub fn add_words(tree: u64, runs: &[Run<Said>], found: &mut Vec<Finding>) -> Result<(), AllocError>
    ensures { OnOk result (found.new.items ≡ found.old.items ++ filter_map (bad_word tree) runs.now) }
{
    for i in 0..runs.len() {
        add(found, found_in(tree, &runs[i]))?;
    }
    Ok(())
}
