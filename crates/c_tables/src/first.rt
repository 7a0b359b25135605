//! The first member of a list that is refused.
ghost use Rattle.std.specs.Prelude.{◌≡◌, ℕ, false, ◌<◌, ◌==◌, ◌↔◌, All, None, IfSome, IsTrue, length};
ghost use Rattle.std.specs.List.{list_any};
ghost use Rattle.c_tables.specs.ByFrames.{IsWhole};
ghost use Rattle.c_tables.specs.Given.{HasPage, is_again, IsKnown, IsRepeated, IsRootless, IsShort, IsStrange};

use crate::follow::{PlainPage, PlainRoot, page_of};

/// What has a number that no other member of its list may have.
pub(crate) trait Numbered: Copy {
    ghost number_of: { Self → ℕ };

    /// The number.
    fn number(self) -> u64
        ensures { result ≡ number_of self };
}

/// The number of a page is its frame.
impl Numbered for PlainPage<'_> {
    ghost number_of = { λ page. page.frame };

    fn number(self) -> u64 {
        self.frame
    }
}

/// The number of a root is its tree.
impl Numbered for PlainRoot {
    ghost number_of = { λ root. root.tree };

    fn number(self) -> u64 {
        self.tree
    }
}

/// The index of the first member that has the number of an earlier one.
pub(crate) fn first_again<T: Numbered>(members: &[T]) -> Option<usize>
    ensures some { IfSome result (IsRepeated T.number_of members.now) }
    ensures none { result ≡ None
        → (i : ℕ)
        → i < length members.now
        → is_again T.number_of members.now i ≡ false }
{
    for i in 0..members.len() {
        if has_number(&members[..i], members[i].number()) {
            return Some(i);
        }
    }
    None
}

/// Whether a member has a number.
fn has_number<T: Numbered>(members: &[T], number: u64) -> bool
    ensures { result ≡ list_any (λ m. T.number_of m == number) members.now }
{
    members.iter().any(|member| member.number() == number)
}

/// The index of the first page that hasn't 512 words.
pub(crate) fn first_short(pages: &[PlainPage<'_>]) -> Option<usize>
    ensures some { IfSome result (IsShort pages.now) }
    ensures none { result ≡ None → All IsWhole pages.now }
{
    for i in 0..pages.len() {
        if pages[i].words.len() != 512 {
            return Some(i);
        }
    }
    None
}

/// Whether the tree of a root can be.
fn is_tree(root: PlainRoot) -> bool
    ensures { IsTrue result ↔ IsKnown root }
{
    root.tree < TREES
}

/// The index of the first root of a tree that can't be.
pub(crate) fn first_strange(roots: &[PlainRoot]) -> Option<usize>
    ensures some { IfSome result (IsStrange roots.now) }
    ensures none { result ≡ None → All IsKnown roots.now }
{
    for i in 0..roots.len() {
        if !is_tree(roots[i]) {
            return Some(i);
        }
    }
    None
}

/// The index of the first root whose frame has no page.
pub(crate) fn first_rootless(pages: &[PlainPage<'_>], roots: &[PlainRoot]) -> Option<usize>
    ensures some { IfSome result (IsRootless pages.now roots.now) }
    ensures none { result ≡ None → All (HasPage pages.now) roots.now }
{
    for i in 0..roots.len() {
        if page_of(pages, roots[i].frame).is_none() {
            return Some(i);
        }
    }
    None
}

/// The trees: the host's, the hypervisor's and those of 64 guests.
pub(crate) const TREES: u64 = 66;
