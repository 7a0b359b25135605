//! Where two states differ: the first difference that an audit finds.
use crate::expect::expect_told;
use crate::sample::{memory, started};
use descriptor::{Frame, Kind, Owner, Prot, State};
use ghost_judge::audit::audit;
use ghost_judge::disagreement::{Disagreement, TreeOf};
use ghost_spec::filled::rows_of;
use ghost_spec::lists::GhostLists;
use ghost_spec::state::Ghost;
use page_state::{Entry, Page, PageRange, Row, Run, Target, Usage};
use std::alloc::Global;
use std::process::Abort;

/// Leaves of the frames of their own numbers.
fn leaves(first: u64, count: u64) -> Run {
    Run {
        pages: PageRange {
            first: Page(first),
            count,
        },
        target: Target::Leaf {
            frame: Frame(first),
            prot: Prot::RWX,
            kind: Kind::Normal,
            state: State::Owned,
        },
    }
}

fn row(owner: u64) -> Row {
    Row {
        owner: Owner(owner),
        lent: None,
        usage: Usage::Plain,
    }
}

/// The rows of one frame alone.
fn row_alone(row: Row) -> run_list::Run<Row> {
    run_list::Run {
        pages: PageRange {
            first: Page(0x40200),
            count: 1,
        },
        value: row,
    }
}

/// The lists of a boot state.
fn booted(rt: &impl Abort, alloc: Global) -> GhostLists {
    let map = memory(alloc, 0x40).expect(rt, "a memory");
    let booted = started(alloc, map, 1, 9).expect(rt, "memory");
    booted.expect(rt, "enough frames").into_lists()
}

/// A boot state but for the host's map and the rows.
fn state(rt: &impl Abort, alloc: Global, runs: &[Run], rows: &[run_list::Run<Row>]) -> Ghost {
    let mut lists = booted(rt, alloc);
    lists.shared.host.runs = Vec::from_slice(alloc, runs).expect(rt, "memory");
    lists.shared.rows = rows_of(alloc, rows).ok().expect(rt, "rows");
    Ghost::of(alloc, &lists).ok().expect(rt, "a state")
}

#[test]
fn tells_first_difference(rt: HostRuntime) {
    let alloc = rt.alloc();
    let map = Disagreement::Map {
        tree: TreeOf::Host,
        page: 0x40103,
        kept: Entry::from(leaves(0x40103, 1).target),
        walked: Entry::Unmapped,
    };
    let owner = Disagreement::Owner {
        frame: 0x40200,
        kept: row(0),
        walked: row(1),
    };
    let none = state(&rt, alloc, &[], &[]);
    let plain = state(&rt, alloc, &[], &[row_alone(row(0))]);
    let owned = state(&rt, alloc, &[], &[row_alone(row(1))]);
    let four = state(&rt, alloc, &[leaves(0x40100, 4)], &[]);
    let three = state(&rt, alloc, &[leaves(0x40100, 3)], &[row_alone(row(1))]);
    expect_told(&rt, audit(&none, &none), None);
    expect_told(&rt, audit(&none, &plain), None);
    expect_told(&rt, audit(&none, &owned), Some(owner));
    expect_told(&rt, audit(&plain, &owned), Some(owner));
    expect_told(&rt, audit(&four, &three), Some(map));
}
