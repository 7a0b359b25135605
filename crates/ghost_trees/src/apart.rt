//! Lists whose members are apart: runs that share no page, tables with a block and a frame of their own, frames listed once.
ghost use Rattle.std.specs.Prelude.{◌≡◌, ◌↔◌, ◌<◌, ◌≤◌, All, AllPairs, IfSome, IsTrue, length};
ghost use Rattle.page_state.specs.LayoutFaults.{AreDisjoint};
ghost use Rattle.page_state.specs.Regions.{end_of};
ghost use Rattle.page_state.specs.declared.entry.PageRange.{PageRange};
ghost use Rattle.ghost_trees.specs.Apart.{AreOtherFrames, AreOtherTables, AreRunsDisjoint, IsApartFromLater};
ghost use Rattle.ghost_trees.specs.InOrder.{AreIncreasing};

use crate::tree::Table;
use page_state::{PageRange, Run};
use run_list::Advance;

/// An item of a list that must be apart from the others.
pub trait Apart: Copy {
    ghost IsApart: { Self → Self → Type 0 };

    /// Whether both may be in one list.
    fn is_apart(self, other: Self) -> bool
        ensures { IsTrue result ↔ IsApart self other };

    /// Whether a list is in an order that shows its members apart in one pass. False says nothing.
    fn are_in_order(items: &[Self]) -> bool
        ensures { IsTrue result → AllPairs IsApart items.now };
}

/// Frames that differ.
impl Apart for u64 {
    ghost IsApart = { AreOtherFrames };

    fn is_apart(self, other: u64) -> bool {
        self != other
    }

    fn are_in_order(items: &[u64]) -> bool {
        increase(items)
    }
}

/// Runs that share no page.
impl Apart for Run {
    ghost IsApart = { AreRunsDisjoint };

    fn is_apart(self, other: Run) -> bool {
        is_disjoint(self.pages, other.pages)
    }

    fn are_in_order(items: &[Run]) -> bool {
        follow(items)
    }
}

/// Runs of values that share no page.
impl<V: Advance> Apart for run_list::Run<V> {
    ghost IsApart = { λ r s. AreDisjoint r.pages s.pages };

    fn is_apart(self, other: run_list::Run<V>) -> bool {
        is_disjoint(self.pages, other.pages)
    }

    fn are_in_order(items: &[run_list::Run<V>]) -> bool {
        follow(items)
    }
}

/// Tables of two blocks and with two frames.
impl Apart for Table {
    ghost IsApart = { AreOtherTables };

    fn is_apart(self, other: Table) -> bool {
        (self.block.0 != other.block.0 || self.block.1 != other.block.1)
            && self.frame != other.frame
    }

    fn are_in_order(items: &[Table]) -> bool {
        items.len() < 2
    }
}

/// Whether each number is more than the one before it.
pub(crate) fn increase(items: &[u64]) -> bool
    ensures { IsTrue result → AreIncreasing items.now (length items.now) }
{
    for i in 1..items.len() {
        if items[i - 1] >= items[i] {
            return false;
        }
    }
    true
}

/// An item with pages of its own.
pub trait Paged: Copy {
    ghost pages_of: { Self → PageRange };

    /// The pages.
    fn pages(self) -> PageRange
        ensures { result ≡ pages_of self };
}

impl Paged for Run {
    ghost pages_of = { λ r. r.pages };

    fn pages(self) -> PageRange {
        self.pages
    }
}

impl<V: Advance> Paged for run_list::Run<V> {
    ghost pages_of = { λ r. r.pages };

    fn pages(self) -> PageRange {
        self.pages
    }
}

/// Where a range ends, if it begins at a page or after it and ends below 2^64.
fn end_from(page: u64, range: PageRange) -> Option<u64>
    ensures { IfSome result (λ end. (page ≤ range.first.0) × (end ≡ end_of range)) }
{
    if range.first.0 < page || range.count > u64::MAX - range.first.0 {
        None
    } else {
        Some(range.first.0 + range.count)
    }
}

/// Whether each member begins where the one before it ends, or after that.
fn follow<T: Paged>(items: &[T]) -> bool
    ensures { IsTrue result → AllPairs (λ r s. AreDisjoint (T.pages_of r) (T.pages_of s)) items.now }
{
    let mut until = 0;
    for i in 0..items.len() {
        match end_from(until, items[i].pages()) {
            Some(end) => until = end,
            None => return false,
        }
    }
    true
}

/// Whether no page is in both ranges. They may end past 2^64.
pub fn is_disjoint(a: PageRange, b: PageRange) -> bool
    ensures { IsTrue result ↔ AreDisjoint a b }
{
    if a.count == 0 || b.count == 0 {
        true
    } else if a.first.0 <= b.first.0 {
        b.first.0 - a.first.0 >= a.count
    } else {
        a.first.0 - b.first.0 >= b.count
    }
}

/// Whether each member of a list is apart from all others.
pub fn are_apart<T: Apart>(items: &[T]) -> bool
    ensures { IsTrue result ↔ AllPairs T.IsApart items.now }
{
    if T::are_in_order(items) {
        return true;
    }
    for i in 0..items.len() {
        if !is_apart_from_later(items, i) {
            return false;
        }
    }
    true
}

/// Whether a member is apart from each later one.
fn is_apart_from_later<T: Apart>(items: &[T], i: usize) -> bool
    requires { i < length items.now }
    ensures { IsTrue result ↔ IsApartFromLater T.IsApart items.now i }
{
    is_apart_from(items[i], &items[i + 1..])
}

/// Whether it is apart from each of a list.
fn is_apart_from<T: Apart>(item: T, others: &[T]) -> bool
    ensures { IsTrue result ↔ All (T.IsApart item) others.now }
{
    others.iter().all(|other| item.is_apart(*other))
}
