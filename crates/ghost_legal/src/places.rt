//! The place of a page in ranges that are in order.
ghost use Rattle.std.specs.Prelude.{◌≡◌, ◌-◌, ◌^◌, ◌<◌, ◌≤◌, ◌↔◌, IsTrue, All};
ghost use Rattle.page_state.specs.declared.entry.PageRange.{PageRange as PageRangeOf};
ghost use Rattle.page_state.specs.Regions.{end_of};
ghost use Rattle.ghost_legal.specs.Ranges.{IsNear, IsNumber, IsPlace};

use crate::held::Held;
use page_state::{PageRange, Row, Run};

/// An item with a range.
pub(crate) trait Ranged: Copy {
    ghost span: { Self → PageRangeOf };

    fn range(self) -> PageRange
        ensures { result ≡ span self };
}

impl Ranged for Run {
    ghost span = { λ r. r.pages };

    fn range(self) -> PageRange {
        self.pages
    }
}

impl Ranged for run_list::Run<Row> {
    ghost span = { λ r. r.pages };

    fn range(self) -> PageRange {
        self.pages
    }
}

impl Ranged for Held {
    ghost span = { λ h. h.frames };

    fn range(self) -> PageRange {
        self.frames
    }
}

/// The place of a page in ranges that are in order.
#[derive(Clone, Copy)]
pub(crate) struct Place {
    /// How many ranges end at the page or before it.
    pub(crate) number: usize,
    /// Whether the next has the page.
    pub(crate) inside: bool,
    /// Up to this page it is so.
    pub(crate) until: u64,
}

impl Place {
    /// In front of all ranges.
    const FIRST: Place = Place {
        number: 0,
        inside: false,
        until: 0,
    };
}

/// The places of a frame in all lists.
#[derive(Clone, Copy)]
pub(crate) struct Places {
    pub(crate) host: Place,
    pub(crate) hyp: Place,
    pub(crate) rows: Place,
    pub(crate) held: Place,
}

impl Places {
    /// In front of all ranges.
    pub(crate) const FIRST: Places = Places {
        host: Place::FIRST,
        hyp: Place::FIRST,
        rows: Place::FIRST,
        held: Place::FIRST,
    };
}

/// Whether a range ends at a page or before it.
fn ends_by(range: PageRange, page: u64) -> bool
    ensures { IsTrue result ↔ (end_of range ≤ page) }
{
    range.first.0 <= page && range.count <= page - range.first.0
}

/// How many ranges end at a page or before it, counted on from a number.
fn number_from<T: Ranged>(items: &[T], near: usize, page: u64) -> usize
    requires { IsNear T.span page near items.now }
    ensures { IsNumber T.span page result items.now }
{
    let mut number = near;
    while number < items.len() {
        if !ends_by(items[number].range(), page) {
            return number;
        }
        number += 1;
    }
    number
}

/// The place of a page, given a number of ranges that end before it.
pub(crate) fn place_at<T: Ranged>(items: &[T], near: usize, page: u64) -> Place
    requires near { IsNear T.span page near items.now }
    requires small { All (λ x. end_of (T.span x) ≤ 2 ^ 63) items.now }
    requires page { page < 2 ^ 64 - 1 }
    ensures { IsPlace T.span page result items.now }
{
    let number = number_from(items, near, page);
    if number == items.len() {
        return Place {
            number,
            inside: false,
            until: u64::MAX,
        };
    }
    let range = items[number].range();
    if page < range.first.0 {
        return Place {
            number,
            inside: false,
            until: range.first.0,
        };
    }
    Place {
        number,
        inside: true,
        until: range.first.0 + range.count,
    }
}
