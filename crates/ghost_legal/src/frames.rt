//! One pass over all frames, piece by piece: along a piece all parts go on as they begin.
ghost use Rattle.std.specs.Prelude.{◌≡◌, ℕ, ◌+◌, ◌-◌, ◌^◌, ◌<◌, ◌≤◌, true, All, MatchOption};
ghost use Rattle.page_state.specs.Entries.{advance};
ghost use Rattle.page_state.specs.Layouts.{hyp_page, is_memory};
ghost use Rattle.page_state.specs.LayoutView.{layout_of};
ghost use Rattle.page_state.specs.Regions.{end_of, has_memory, is_in_range};
ghost use Rattle.page_state.specs.Rows.{advance_row, HasPageBelow};
ghost use Rattle.page_state.specs.Runs.{map_of, IsCoarsest};
ghost use Rattle.run_list.specs.Runs.{AreInReach, IsCoarsest as IsCoarsestList};
ghost use Rattle.ghost_trees.specs.Small.{AreSmall};
ghost use Rattle.ghost_spec.specs.Kept.{IsKeptShared};
ghost use Rattle.ghost_spec.specs.Views.{row_in};
ghost use Rattle.ghost_legal.specs.Facts.{facts_later, option_later, IsCondition};
ghost use Rattle.ghost_legal.specs.Frames.{facts_in, held_at, held_frames, IsHeldList, IsFrameFault};
ghost use Rattle.ghost_legal.specs.Places.{AreNear, ArePlaces};
ghost use Rattle.ghost_legal.specs.Ranges.{IsPlace};

use crate::condition::{HYP_DISTANCE, fits};
use crate::finding::{Facts, Holder};
use crate::held::{Held, later};
use crate::places::{Place, Places, place_at};
use ghost_spec::lists::GhostLists;
use page_state::{Entry, MemoryMap, Owner, Page, PageRange, Row, Run, Usage};
use run_list::Advance;

/// Past all pages and frames.
const END: u64 = 0x8000_0000_0000_0000;

/// The entry of a page, by its place.
fn entry_at(runs: &[Run], place: Place, page: u64) -> Entry
    requires small { AreSmall runs.now }
    requires coarsest { IsCoarsest runs.now }
    requires place { IsPlace (λ r. r.pages) page place runs.now }
    ensures { result ≡ map_of runs.now page }
{
    if place.inside {
        let run = runs[place.number];
        return Entry::from(run.target).advance(page - run.pages.first.0);
    }
    Entry::Unmapped
}

/// The row of a frame that no run has: the host owns it, shares it with nobody, and has it in no use.
const PLAIN_ROW: Row = Row {
    owner: Owner(0),
    lent: None,
    usage: Usage::Plain,
};

/// The row of a frame, by its place.
fn row_at(rows: &[run_list::Run<Row>], place: Place, frame: u64) -> Row
    requires coarsest { IsCoarsestList advance_row rows.now }
    requires reach { AreInReach HasPageBelow rows.now }
    requires place { IsPlace (λ r. r.pages) frame place rows.now }
    ensures { result ≡ row_in rows.now frame }
{
    if place.inside {
        let run = rows[place.number];
        return run.value.advanced(frame - run.pages.first.0);
    }
    PLAIN_ROW
}

/// The holder of a frame, from its place.
fn holder_at(held: &[Held], place: Place, frame: u64) -> Option<Holder>
    requires held { IsHeldList held.now }
    requires place { IsPlace held_frames frame place held.now }
    ensures { result ≡ held_at held.now frame }
{
    if place.inside {
        let piece = held[place.number];
        return Some(later(piece.holder, frame - piece.frames.first.0));
    }
    None
}

/// Up to which page a range goes on as it does at a page, no further than another.
fn range_until(range: PageRange, page: u64, most: u64) -> u64
    requires page { page < most }
    requires range { end_of range < 2 ^ 64 }
    ensures above { page < result }
    ensures below { result ≤ most }
    ensures goes_on { (f : ℕ) → page ≤ f → f < result → is_in_range range f ≡ is_in_range range page }
{
    let first = range.first.0;
    let end = first + range.count;
    if page < first {
        return most.min(first);
    }
    if page < end {
        return most.min(end);
    }
    most
}

/// Up to which page memory goes on as it does at a page, no further than another.
fn memory_until(memory: &MemoryMap, page: u64, most: u64) -> u64
    requires { page < most }
    ensures above { page < result }
    ensures below { result ≤ most }
    ensures goes_on { (f : ℕ) → page ≤ f → f < result → has_memory memory.now f ≡ has_memory memory.now page }
{
    let regions = memory.regions();
    let mut until = most;
    for i in 0..regions.len() {
        until = range_until(regions[i].pages, page, until);
    }
    until
}

/// The places of a frame in all lists, near those of a frame before it.
#[tactic(auto, using(crate::proofs::Steady::small_rows))]
fn places_at(state: &GhostLists, held: &[Held], near: Places, frame: u64) -> Places
    requires kept { IsKeptShared state.now.shared }
    requires held { IsHeldList held.now }
    requires frame { frame < 2 ^ 63 }
    requires near { AreNear frame near state.now.shared held.now }
    ensures { ArePlaces frame result state.now.shared held.now }
{
    let shared = &state.shared;
    Places {
        host: place_at(shared.host.runs.as_slice(), near.host.number, frame),
        hyp: place_at(
            shared.hyp.runs.as_slice(),
            near.hyp.number,
            frame + HYP_DISTANCE,
        ),
        rows: place_at(shared.rows.runs(), near.rows.number, frame),
        held: place_at(held, near.held.number, frame),
    }
}

/// The facts of all parts about a frame.
fn facts_at(state: &GhostLists, held: &[Held], places: Places, frame: u64) -> Facts
    requires kept { IsKeptShared state.now.shared }
    requires held { IsHeldList held.now }
    requires frame { frame < 2 ^ 63 }
    requires places { ArePlaces frame places state.now.shared held.now }
    ensures { result ≡ facts_in state.now held.now frame }
{
    let shared = &state.shared;
    Facts {
        memory: state.layout.map.is_memory(Page(frame)),
        host: entry_at(shared.host.runs.as_slice(), places.host, frame),
        hyp: entry_at(shared.hyp.runs.as_slice(), places.hyp, frame + HYP_DISTANCE),
        row: row_at(shared.rows.runs(), places.rows, frame),
        holder: holder_at(held, places.held, frame),
    }
}

/// Up to which frame all parts go on as they do at one.
fn until(state: &GhostLists, held: &[Held], places: Places, frame: u64) -> u64
    requires kept { IsKeptShared state.now.shared }
    requires held { IsHeldList held.now }
    requires frame { frame < 2 ^ 63 }
    requires places { ArePlaces frame places state.now.shared held.now }
    ensures above { frame < result }
    ensures below { result ≤ 2 ^ 63 }
    ensures goes_on { (f : ℕ)
        → frame ≤ f
        → f < result
        → facts_in state.now held.now f
        ≡ facts_later (facts_in state.now held.now frame) (f - frame) }
{
    let _rows = state.shared.rows.runs();
    let most = places
        .host
        .until
        .min(places.rows.until)
        .min(places.held.until)
        .min(places.hyp.until - HYP_DISTANCE)
        .min(END);
    memory_until(&state.layout.map, frame, most)
}

/// The first frame that is in no condition, with the facts of all parts about it.
pub(crate) fn first_frame(state: &GhostLists, held: &[Held]) -> Option<(u64, Facts)>
    requires kept { IsKeptShared state.now.shared }
    requires held { IsHeldList held.now }
    ensures { MatchOption result ((f : ℕ) → IsCondition f (facts_in state.now held.now f))
        (IsFrameFault state.now held.now) }
{
    let _regions = state.layout.map.regions();
    let mut places = Places::FIRST;
    let mut frame = 0;
    while frame < END {
        places = places_at(state, held, places, frame);
        let facts = facts_at(state, held, places, frame);
        if !fits(frame, facts) {
            return Some((frame, facts));
        }
        frame = until(state, held, places, frame);
    }
    None
}
