//! The first difference of two maps, given as their coarsest lists of runs.
ghost use Rattle.std.specs.Prelude.{◌≡◌, ◌^◌, ◌≤◌, map};
ghost use Rattle.run_list.specs.declared.run.Run.{Run as ListRun};
ghost use Rattle.run_list.specs.Runs.{run_end, run_map};
ghost use Rattle.run_list.specs.View.{IsKept};
ghost use Rattle.ghost_judge.specs.inner.Parted.{parted_at, IsFoundApart};

use page_state::Target;
use run_list::{Advance, Run};

/// A type that reads as a run of values.
pub(crate) trait Told<V: Advance>: Copy {
    ghost told: { Self → ListRun V };

    /// The run.
    fn run(self) -> Run<V>
        ensures { result ≡ told self };
}

impl<V: Advance> Told<V> for Run<V> {
    ghost told = { λ r. r };

    fn run(self) -> Run<V> {
        self
    }
}

impl Told<Target> for page_state::Run {
    ghost told = { λ r. record { pages = r.pages; value = r.target } };

    fn run(self) -> Run<Target> {
        Run {
            pages: self.pages,
            value: self.target,
        }
    }
}

/// The first page that only one of two runs has, or to which they give other values.
pub(crate) fn parted<V: Advance>(a: Run<V>, b: Run<V>) -> Option<u64>
    requires a { run_end a ≤ 2 ^ 63 }
    requires b { run_end b ≤ 2 ^ 63 }
    ensures { result ≡ parted_at V.eq a b }
{
    let first = a.pages.first.0;
    if first != b.pages.first.0 {
        return Some(first.min(b.pages.first.0));
    }
    if a.value != b.value {
        return Some(first);
    }
    if a.pages.count == b.pages.count {
        None
    } else {
        Some(first + a.pages.count.min(b.pages.count))
    }
}

/// The first page to which two maps give other values.
pub(crate) fn first_apart<V: Advance, T: Told<V>>(a: &[T], b: &[T]) -> Option<u64>
    requires a { IsKept V.advance V.CanAdvance (map T.told a.now) }
    requires b { IsKept V.advance V.CanAdvance (map T.told b.now) }
    ensures { IsFoundApart (run_map V.advance (map T.told a.now))
        (run_map V.advance (map T.told b.now)) result }
{
    let both = a.len().min(b.len());
    for i in 0..both {
        let page = parted(a[i].run(), b[i].run());
        if page.is_some() {
            return page;
        }
    }
    if both < a.len() {
        return Some(a[both].run().pages.first.0);
    }
    if both < b.len() {
        return Some(b[both].run().pages.first.0);
    }
    None
}
