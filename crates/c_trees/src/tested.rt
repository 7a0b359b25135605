//! The pages of a root.
ghost use Rattle.std.specs.Prelude.{◌≡◌, ◌≤◌, ◌↔◌, ◌++◌, IfOk, IsTrue, OnOk, find, length, option_to_list};
ghost use Rattle.walked_tables.specs.ByFrames.{page_of};
ghost use Rattle.c_trees.specs.Roots.{root_pages, HasCount, HasPages};

use crate::root::{PlainRoot, count_of};
use std::alloc::{AllocError, Global};
use walked_tables::TablePage;

/// The page of a frame.
fn page_at<'a>(pages: &[TablePage<'a>], frame: u64) -> Option<TablePage<'a>>
    ensures { result ≡ page_of pages.now frame }
{
    pages.iter().copied().find(|page| page.frame == frame)
}

/// Whether each frame of a root has a page.
pub(crate) fn has_pages(pages: &[TablePage<'_>], root: &PlainRoot<'_>) -> bool
    requires { HasCount root.now }
    ensures { IsTrue result ↔ HasPages pages.now root.now }
{
    for k in 0..count_of(root) {
        if page_at(pages, root.frame + k).is_none() {
            return false;
        }
    }
    true
}

/// Adds a page, if there is one.
fn push_found<'a>(
    found: &mut Vec<TablePage<'a>>,
    page: Option<TablePage<'a>>,
) -> Result<(), AllocError>
    ensures { OnOk result (found.new.items ≡ found.old.items ++ option_to_list page.entry) }
{
    if let Some(page) = page {
        found.push(page)?;
    }
    Ok(())
}

/// The pages of a root, in order.
pub(crate) fn pages_of_root<'a>(
    alloc: Global,
    pages: &[TablePage<'a>],
    root: &PlainRoot<'_>,
) -> Result<Vec<TablePage<'a>>, AllocError>
    requires { HasCount root.now }
    ensures pages { IfOk result (λ found. found.items ≡ root_pages pages.now root.now) }
    ensures few { IfOk result (λ found. length found.items ≤ 16) }
{
    let mut found = Vec::new(alloc);
    for k in 0..count_of(root) {
        push_found(&mut found, page_at(pages, root.frame + k))?;
    }
    Ok(found)
}
