//! The pages of a root, and whether pages are whole.
ghost use Rattle.std.specs.Prelude.{◌≡◌, ◌+◌, ◌^◌, ◌<◌, ◌≤◌, ◌↔◌, All, IfOk, IsTrue, MatchOption, None};
ghost use Rattle.walked_tables.specs.ByFrames.{IsWhole, page_of};
ghost use Rattle.walked_tables.specs.Roots.{AreRootPages, IsRootless};

use crate::follow::{TablePage, page_of_frame};
use std::alloc::{AllocError, Global};

/// Whether each page has 512 words.
pub fn are_whole(pages: &[TablePage<'_>]) -> bool
    ensures { IsTrue result ↔ All IsWhole pages.now }
{
    pages.iter().all(|page| page.words.len() == 512)
}

/// The pages of a root of `count` pages from a frame on. None if a frame has no page.
pub fn root_pages<'a>(
    alloc: Global,
    pages: &[TablePage<'a>],
    frame: u64,
    count: u64,
) -> Result<Option<Vec<TablePage<'a>>>, AllocError>
    requires { frame + count < 2 ^ 64 }
    ensures { IfOk result
        (λ found. MatchOption found (IsRootless pages.now frame count)
        (λ roots. AreRootPages pages.now frame count roots.items)) }
{
    let mut roots = Vec::new(alloc);
    for k in 0..count {
        match page_of_frame(pages, frame + k) {
            Some(page) => roots.push(page)?,
            None => return Ok(None),
        }
    }
    Ok(Some(roots))
}
