//! States with changes.
ghost use Rattle.std.specs.Prelude.{◌≡◌, true};
ghost use Rattle.page_state.specs.Rows.{HasPageBelow};
ghost use Rattle.page_state.specs.Runs.{IsCoarsest};
ghost use Rattle.ghost_trees.specs.Small.{AreSmall, HasLowFrames};

use ghost_spec::lists::GhostLists;
use ghost_spec::parts::GhostGuest;
use ghost_spec::state::Ghost;
use ghost_trees::runs::updated;
use page_state::{Entry, Kind, Page, PageRange, Row, Run, State, Target};
use std::alloc::Global;
use std::process::Abort;

/// A page.
fn page_of(page: u64) -> PageRange
    ensures first { result.first.0 ≡ page }
    ensures count { result.count ≡ 1 }
{
    PageRange {
        first: Page(page),
        count: 1,
    }
}

/// Whether an entry's frame is small.
fn is_low(entry: Entry) -> bool
    ensures { result ≡ true → HasLowFrames entry 1 }
{
    match entry {
        Entry::Leaf { frame, .. } => frame.0 < 0x1_0000_0000,
        _ => true,
    }
}

/// Runs in which a page has another entry.
fn put(rt: &impl Abort, alloc: Global, runs: &[Run], page: u64, entry: Entry) -> Vec<Run>
    requires small { AreSmall runs.now }
    requires coarsest { IsCoarsest runs.now }
{
    assert!(rt; page < 0x1_0000_0000);
    assert!(rt; is_low(entry));
    let made = updated(alloc, runs, page_of(page), entry);
    made.expect(rt, "memory")
}

/// The state of lists.
fn state_of(rt: &impl Abort, alloc: Global, lists: GhostLists) -> Ghost {
    let made = Ghost::of(alloc, &lists);
    drop(lists);
    made.expect(rt, "a state")
}

/// The state in which the host's page has another entry.
pub(crate) fn with_host(
    rt: &impl Abort,
    alloc: Global,
    state: Ghost,
    page: u64,
    entry: Entry,
) -> Ghost {
    let mut lists = state.into_lists();
    let made = put(rt, alloc, lists.shared.host.runs.as_slice(), page, entry);
    lists.shared.host.runs = made;
    state_of(rt, alloc, lists)
}

/// The state in which the hypervisor's page has another entry.
pub(crate) fn with_hyp(
    rt: &impl Abort,
    alloc: Global,
    state: Ghost,
    page: u64,
    entry: Entry,
) -> Ghost {
    let mut lists = state.into_lists();
    let made = put(rt, alloc, lists.shared.hyp.runs.as_slice(), page, entry);
    lists.shared.hyp.runs = made;
    state_of(rt, alloc, lists)
}

/// Whether the page that a row names is small.
fn is_low_row(row: Row) -> bool
    ensures { result ≡ true → HasPageBelow row 1 }
{
    match row.lent {
        Some(lent) => lent.page < 0x1_0000_0000,
        None => true,
    }
}

/// The state in which a frame has another row.
pub(crate) fn with_row(
    rt: &impl Abort,
    alloc: Global,
    state: Ghost,
    frame: u64,
    row: Row,
) -> Ghost {
    assert!(rt; frame < 0x1_0000_0000);
    assert!(rt; is_low_row(row));
    let mut lists = state.into_lists();
    lists.shared.rows.reserve(2).expect(rt, "memory");
    lists.shared.rows.set(page_of(frame), Some(row));
    state_of(rt, alloc, lists)
}

/// The guest without tables and free frames.
fn bare_guest(rt: &impl Abort, alloc: Global, guest: &GhostGuest) -> GhostGuest {
    let mut made = GhostGuest::none(alloc);
    made.phase = guest.phase;
    made.generation = guest.generation;
    made.kind = guest.kind;
    made.tree.runs = Vec::from_slice(alloc, guest.tree.runs.as_slice()).expect(rt, "memory");
    made
}

/// The state without tables and free frames, as a hypervisor with its own tables and pools gives it.
pub(crate) fn bare(rt: &impl Abort, alloc: Global, state: &Ghost) -> Ghost {
    let mut guests = Vec::new(alloc);
    for guest in &state.lists().guests {
        guests
            .push(bare_guest(rt, alloc, guest))
            .expect(rt, "memory");
    }
    let mut lists = state.copied(alloc).expect(rt, "memory").into_lists();
    lists.guests = guests;
    lists.shared.host.tables = Vec::new(alloc);
    lists.shared.hyp.tables = Vec::new(alloc);
    lists.shared.free = Vec::new(alloc);
    state_of(rt, alloc, lists)
}

/// A leaf of normal memory.
fn normal(target: Target) -> Target {
    match target {
        Target::Leaf {
            frame,
            prot,
            state,
            ..
        } => Target::Leaf {
            frame,
            prot,
            kind: Kind::Normal,
            state,
        },
        other => other,
    }
}

/// The state in which the host has none of its own pages mapped, and devices' pages as memory.
pub(crate) fn lazy(rt: &impl Abort, alloc: Global, state: &Ghost) -> Ghost {
    let mut runs = Vec::new(alloc);
    for run in &state.lists().shared.host.runs {
        let is_own = matches!(
            run.target,
            Target::Leaf {
                state: State::Owned,
                ..
            }
        );
        if !is_own {
            let run = Run {
                pages: run.pages,
                target: normal(run.target),
            };
            runs.push(run).expect(rt, "memory");
        }
    }
    let mut lists = bare(rt, alloc, state).into_lists();
    lists.shared.host.runs = runs;
    state_of(rt, alloc, lists)
}
