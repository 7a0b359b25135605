//! The pages at which two maps differ.
ghost use Rattle.std.specs.Prelude.{◌≡◌, ℕ, ◌+◌, ◌-◌, ◌^◌, ◌<◌, ◌≤◌, IfOk, drop};
ghost use Rattle.std.specs.Option.{ForSome};
ghost use Rattle.run_list.specs.Runs.{run_map, option_advance, AreInReach, IsCoarsest, StartsFrom};
ghost use Rattle.run_list.specs.Parts.{IsBegunAt};
ghost use Rattle.run_changes.specs.Changes.{AdvancesApart, AreChanges, IsDifference};

use crate::change::Change;
use page_state::{Page, PageRange};
use run_list::{Advance, Run, RunList};
use std::alloc::{AllocError, Global};

/// The pages are below this one.
const END: u64 = 0x8000_0000_0000_0000;

/// The changes from one map to another: both values of each page at which they differ, and no other page.
pub fn changes<V: Advance>(
    alloc: Global,
    before: &RunList<V>,
    after: &RunList<V>,
) -> Result<RunList<Change<V>>, AllocError>
    requires apart { AdvancesApart V.advance }
    ensures { IfOk result (λ found. AreChanges V.advance before.now.runs after.now.runs found.runs) }
{
    let old = before.runs();
    let new = after.runs();
    let mut found = RunList::new(alloc);
    let mut low = 0;
    while low < END {
        let high = until(old, low).min(until(new, low));
        let pages = PageRange {
            first: Page(low),
            count: high - low,
        };
        let change = difference(before.at(Page(low)), after.at(Page(low)));
        found.reserve(2)?;
        found.set(pages, change);
        low = high;
    }
    Ok(found)
}

/// The change of a page, None if it is unchanged.
fn difference<V: Advance>(before: Option<V>, after: Option<V>) -> Option<Change<V>>
    ensures { IsDifference before after result }
{
    if before == after {
        None
    } else {
        Some(Change { before, after })
    }
}

/// How many runs begin at a page or before it.
fn begun<V: Advance>(runs: &[Run<V>], page: u64) -> usize
    requires { IsCoarsest V.advance runs.now }
    ensures { IsBegunAt page result runs.now }
{
    runs.partition_point(|run| run.pages.first.0 <= page)
}

/// A later page: up to there the map goes on as it does at the page.
pub fn until<V: Advance>(runs: &[Run<V>], page: u64) -> u64
    requires coarsest { IsCoarsest V.advance runs.now }
    requires reach { AreInReach V.CanAdvance runs.now }
    requires low { page < 2 ^ 63 }
    ensures above { page < result }
    ensures below { result ≤ 2 ^ 63 }
    ensures goes_on { (p : ℕ)
        → page ≤ p
        → p < result
        → run_map V.advance runs.now p
        ≡ option_advance V.advance (run_map V.advance runs.now page) (p - page) }
    ensures reach { (n : ℕ)
        → page + n ≤ result
        → ForSome (run_map V.advance runs.now page) (λ v. V.CanAdvance v n) }
{
    let place = begun(runs, page);
    if place == 0 {
        return next(runs, place);
    }
    let run = runs[place - 1];
    if run.pages.count <= page - run.pages.first.0 {
        return next(runs, place);
    }
    run.pages.first.0 + run.pages.count
}

/// The first page of the run at a place, and after the last run a page past all pages.
fn next<V: Advance>(runs: &[Run<V>], place: usize) -> u64
    requires reach { AreInReach V.CanAdvance runs.now }
    ensures from { StartsFrom result (drop place runs.now) }
    ensures above { (page : ℕ) → page < 2 ^ 63 → StartsFrom (page + 1) (drop place runs.now) → page < result }
    ensures below { result ≤ 2 ^ 63 }
{
    if place < runs.len() {
        runs[place].pages.first.0
    } else {
        END
    }
}
