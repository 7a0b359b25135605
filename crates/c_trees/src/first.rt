//! The first member of a list that is refused.
ghost use Rattle.std.specs.Prelude.{◌≡◌, ℕ, false, ◌<◌, ◌==◌, ◌↔◌, All, None, IfSome, IsTrue, length};
ghost use Rattle.std.specs.List.{list_any};
ghost use Rattle.walked_tables.specs.ByFrames.{IsWhole};
ghost use Rattle.c_trees.specs.Given.{is_again, IsBadRoot, IsKnown, IsRepeated, IsRootless, IsShort, IsStrange};
ghost use Rattle.c_trees.specs.Roots.{HasPages, IsGoodRoot};

use crate::root::{PlainRoot, RootFault, root_fault};
use crate::tested::has_pages;
use walked_tables::TablePage;

/// What has a number that no other member of its list may have.
pub(crate) trait Numbered: Copy {
    ghost number_of: { Self → ℕ };

    /// The number.
    fn number(self) -> u64
        ensures { result ≡ number_of self };
}

/// The number of a page is its frame.
impl Numbered for TablePage<'_> {
    ghost number_of = { λ page. page.frame };

    fn number(self) -> u64 {
        self.frame
    }
}

/// The number of a root is its tree.
impl Numbered for PlainRoot<'_> {
    ghost number_of = { λ root. root.tree };

    fn number(self) -> u64 {
        self.tree
    }
}

/// The index of the first member that has the number of an earlier one.
pub(crate) fn first_again<T: Numbered>(members: &[T]) -> Option<usize>
    ensures some { IfSome result (IsRepeated T.number_of members.now) }
    ensures none { result ≡ None
        → (i : ℕ)
        → i < length members.now
        → is_again T.number_of members.now i ≡ false }
{
    for i in 0..members.len() {
        if has_number(&members[..i], members[i].number()) {
            return Some(i);
        }
    }
    None
}

/// Whether a member has a number.
fn has_number<T: Numbered>(members: &[T], number: u64) -> bool
    ensures { result ≡ list_any (λ m. T.number_of m == number) members.now }
{
    members.iter().any(|member| member.number() == number)
}

/// The index of the first page that hasn't 512 words.
pub(crate) fn first_short(pages: &[TablePage<'_>]) -> Option<usize>
    ensures some { IfSome result (IsShort pages.now) }
    ensures none { result ≡ None → All IsWhole pages.now }
{
    for i in 0..pages.len() {
        if pages[i].words.len() != 512 {
            return Some(i);
        }
    }
    None
}

/// Whether the tree of a root can be.
fn is_tree(root: PlainRoot<'_>) -> bool
    ensures { IsTrue result ↔ IsKnown root.entry }
{
    root.tree < TREES
}

/// The index of the first root of a tree that can't be.
pub(crate) fn first_strange(roots: &[PlainRoot<'_>]) -> Option<usize>
    ensures some { IfSome result (IsStrange roots.now) }
    ensures none { result ≡ None → All IsKnown roots.now }
{
    for i in 0..roots.len() {
        if !is_tree(roots[i]) {
            return Some(i);
        }
    }
    None
}

/// A root that can't be: its index, and why.
#[derive(Clone, Copy, PartialEq)]
pub(crate) struct Bad {
    pub at: usize,
    pub fault: RootFault,
}

/// The first root that can't be.
pub(crate) fn first_bad(roots: &[PlainRoot<'_>]) -> Option<Bad>
    ensures some { IfSome result (λ bad. IsBadRoot roots.now bad.at bad.fault) }
    ensures none { result ≡ None → All IsGoodRoot roots.now }
{
    for i in 0..roots.len() {
        if let Some(fault) = root_fault(&roots[i]) {
            return Some(Bad { at: i, fault });
        }
    }
    None
}

/// The index of the first root a frame of which has no page.
pub(crate) fn first_rootless(pages: &[TablePage<'_>], roots: &[PlainRoot<'_>]) -> Option<usize>
    requires { All IsGoodRoot roots.now }
    ensures some { IfSome result (IsRootless pages.now roots.now) }
    ensures none { result ≡ None → All (HasPages pages.now) roots.now }
{
    for i in 0..roots.len() {
        if !has_pages(pages, &roots[i]) {
            return Some(i);
        }
    }
    None
}

/// The trees: the host's, the hypervisor's and those of 64 guests.
pub(crate) const TREES: u64 = 66;
