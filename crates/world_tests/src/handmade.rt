//! A state of lists that are filled in by hand, in any order.
ghost use Rattle.std.specs.Prelude.{◌<◌, ◌^◌};

use crate::expect::expect_told;
use crate::sample::{config, memory};
use call_table::{Refusal, Reply, Step, Value, VmId};
use descriptor::{Frame, Kind, Owner, Prot, State};
use ghost_judge::disagreement::{Disagreement, TreeOf};
use ghost_judge::judge::judge;
use ghost_spec::filled::{GhostFault, rows_of};
use ghost_spec::lists::{GhostLists, GhostRooms};
use ghost_spec::parts::{empty_guests, empty_slots};
use ghost_spec::shared::Shared;
use ghost_spec::start::{equal_rooms, idle_cpus};
use ghost_spec::state::{Ghost, has_next_generation, predict};
use ghost_trees::tree::{Table, Tree};
use page_state::{Entry, Geometry, Layout, Page, PageRange, Row, Run, Target, Usage};
use reference_model::Loaded;
use run_list::RunList;
use std::alloc::Global;
use std::process::Abort;

const CARVE: u64 = 0x40600;

/// A range.
fn range(first: u64, count: u64) -> PageRange {
    PageRange {
        first: Page(first),
        count,
    }
}

/// Pages that are kept for the hypervisor.
fn kept(first: u64, count: u64) -> Run {
    Run {
        pages: range(first, count),
        target: Target::Annotated(Owner(1)),
    }
}

/// The hypervisor's pages of frames.
fn owned(frame: u64, count: u64) -> Run
    requires { frame < 2 ^ 26 }
{
    Run {
        pages: range(0x4000000 + frame, count),
        target: Target::Leaf {
            frame: Frame(frame),
            prot: Prot::RW,
            kind: Kind::Normal,
            state: State::Owned,
        },
    }
}

/// The table of a block.
fn table(block: (u64, u64), frame: u64) -> Table {
    Table { block, frame }
}

/// A tree of these lists.
fn tree(rt: &impl Abort, alloc: Global, runs: &[Run], tables: &[Table]) -> Tree {
    Tree {
        runs: Vec::from_slice(alloc, runs).expect(rt, "memory"),
        tables: Vec::from_slice(alloc, tables).expect(rt, "memory"),
    }
}

/// Rows of a carve-out, in two runs, the second first, and of the memory on both sides.
fn rows(rt: &impl Abort, alloc: Global) -> RunList<Row> {
    let pool = Row {
        owner: Owner(1),
        lent: None,
        usage: Usage::SharedPool,
    };
    let plain = Row {
        owner: Owner(0),
        lent: None,
        usage: Usage::Plain,
    };
    let runs = [
        run_list::Run {
            pages: range(CARVE + 9, 0x40 - 9),
            value: pool,
        },
        run_list::Run {
            pages: range(0x40000, 0x600),
            value: plain,
        },
        run_list::Run {
            pages: range(CARVE, 9),
            value: pool,
        },
    ];
    rows_of(alloc, runs.as_slice()).ok().expect(rt, "rows")
}

/// The frames from the seventh of the carve-out on, the last first.
fn free(rt: &impl Abort, alloc: Global) -> Vec<u64> {
    let mut frames = Vec::new(alloc);
    for i in 0..58u64 {
        frames.push(CARVE + 63 - i).expect(rt, "memory");
    }
    frames
}

/// A Shared part whose carve-out is the hypervisor's, and in which no frame is shared. No list is sorted.
fn shared(rt: &impl Abort, alloc: Global) -> Shared {
    let host = [kept(CARVE + 0x20, 0x20), kept(CARVE, 0x20)];
    let hyp = [owned(CARVE + 1, 0x3f), owned(CARVE, 1)];
    let of_host = [
        table((1, 0x203), CARVE + 2),
        table((3, 0), CARVE),
        table((2, 1), CARVE + 1),
    ];
    let of_hyp = [
        table((3, 0), CARVE + 3),
        table((2, 0x101), CARVE + 4),
        table((1, 0x20203), CARVE + 5),
    ];
    Shared {
        host: tree(rt, alloc, host.as_slice(), of_host.as_slice()),
        hyp: tree(rt, alloc, hyp.as_slice(), of_hyp.as_slice()),
        free: free(rt, alloc),
        rows: rows(rt, alloc),
    }
}

/// A layout of one CPU.
fn layout(rt: &impl Abort, alloc: Global) -> Layout {
    Layout {
        map: memory(alloc, 0x40).expect(rt, "a memory"),
        config: config(1, 9),
        geometry: Geometry::Bits39,
    }
}

/// Logs in which no call is stored.
fn rooms(rt: &impl Abort, alloc: Global) -> GhostRooms {
    GhostRooms {
        vms: 9,
        shared: 9,
        guests: equal_rooms(alloc, 64, 9).expect(rt, "memory"),
        cpus: equal_rooms(alloc, 1, 9).expect(rt, "memory"),
    }
}

/// A state of this Shared part, no VM and one idle CPU.
fn lists(rt: &impl Abort, alloc: Global) -> GhostLists {
    GhostLists {
        layout: layout(rt, alloc),
        vms: empty_slots(alloc, 64).expect(rt, "memory"),
        shared: shared(rt, alloc),
        guests: empty_guests(alloc, 64).expect(rt, "memory"),
        cpus: idle_cpus(alloc, 1).expect(rt, "memory"),
        rooms: rooms(rt, alloc),
    }
}

/// The state of these lists.
fn state(rt: &impl Abort, alloc: Global) -> Ghost {
    let lists = lists(rt, alloc);
    let made = Ghost::of(alloc, &lists).ok().expect(rt, "a state");
    assert!(rt; made.lists().layout.config.cpus == 1);
    made
}

#[test]
fn sorts_and_joins(rt: HostRuntime) {
    let alloc = rt.alloc();
    let made = state(&rt, alloc).into_lists();
    let runs = [kept(CARVE, 0x40)];
    assert!(rt; made.shared.host.runs.as_slice() == runs.as_slice());
    let runs = [owned(CARVE, 0x40)];
    assert!(rt; made.shared.hyp.runs.as_slice() == runs.as_slice());
    assert!(rt; made.shared.rows.runs().len() == 2);
    assert!(rt; made.shared.free.len() == 58);
    assert!(rt; made.shared.free[0] == CARVE + 6);
    assert!(rt; made.shared.free[57] == CARVE + 63);
}

/// The share of a page of the host.
const SHARE: Step = Step::ShareHyp { pfn: 0x40100 };

const DONE: Reply = Reply::Done(Value::Nothing);

/// Judges the share of a page of that state by this reply and state after it.
fn judged(rt: &impl Abort, alloc: Global, reply: Reply, post: &Ghost) -> Option<Disagreement> {
    let pre = state(rt, alloc);
    assert!(rt; pre.lists().layout.config.cpus == 1);
    assert!(rt; has_next_generation(&pre, 0, SHARE));
    judge(alloc, &pre, 0, SHARE, &reply, post).expect(rt, "memory")
}

/// The model's reply to the share, and the state after it.
fn predicted(rt: &impl Abort, alloc: Global) -> (Reply, Ghost) {
    let pre = state(rt, alloc);
    assert!(rt; pre.lists().layout.config.cpus == 1);
    assert!(rt; has_next_generation(&pre, 0, SHARE));
    predict(alloc, &pre, 0, SHARE).expect(rt, "memory")
}

#[test]
fn judges_a_step(rt: HostRuntime) {
    let alloc = rt.alloc();
    let (reply, post) = predicted(&rt, alloc);
    assert_eq!(rt; reply, DONE);
    expect_told(&rt, judged(&rt, alloc, DONE, &post), None);
    let wrong = Disagreement::Reply {
        said: Reply::Refused(Refusal::Perm),
        spec: DONE,
    };
    let said = judged(&rt, alloc, Reply::Refused(Refusal::Perm), &post);
    expect_told(&rt, said, Some(wrong));
    let stayed = Disagreement::Map {
        tree: TreeOf::Host,
        page: 0x40100,
        kept: Entry::Unmapped,
        walked: Entry::Leaf {
            frame: Frame(0x40100),
            prot: Prot::RWX,
            kind: Kind::Normal,
            state: State::SharedOwned,
        },
    };
    let unchanged = state(&rt, alloc);
    expect_told(&rt, judged(&rt, alloc, DONE, &unchanged), Some(stayed));
}

/// A way in which lists are no state.
#[derive(Clone, Copy)]
enum Wrong {
    Guests,
    Frame,
    Slot,
    Pages,
    Block,
    TableFrame,
    Free,
}

/// Makes lists wrong.
fn spoil(rt: &impl Abort, lists: &mut GhostLists, wrong: Wrong) {
    let host = &mut lists.shared.host;
    match wrong {
        Wrong::Guests => drop(lists.guests.pop()),
        Wrong::Frame => lists.shared.free.push(1 << 63).expect(rt, "memory"),
        Wrong::Slot => {
            assert!(rt; lists.cpus.len() == 1);
            lists.cpus[0].loaded = Some(Loaded {
                vm: VmId {
                    slot: 64,
                    generation: 1,
                },
                vcpu: 0,
            });
        }
        Wrong::Pages => host.runs.push(kept(CARVE + 0x3f, 2)).expect(rt, "memory"),
        Wrong::Block => host
            .tables
            .push(table((2, 1), 0x40700))
            .expect(rt, "memory"),
        Wrong::TableFrame => host.tables.push(table((2, 2), CARVE)).expect(rt, "memory"),
        Wrong::Free => lists.shared.free.push(CARVE + 20).expect(rt, "memory"),
    }
}

/// Compares the fault of lists that are wrong in one way.
fn expect_fault(rt: &impl Abort, alloc: Global, wrong: Wrong, fault: GhostFault) {
    let mut lists = lists(rt, alloc);
    spoil(rt, &mut lists, wrong);
    assert!(rt; Ghost::of(alloc, &lists).err() == Some(fault));
}

#[test]
fn refuses_by_name(rt: HostRuntime) {
    let alloc = rt.alloc();
    expect_fault(&rt, alloc, Wrong::Guests, GhostFault::WrongCount);
    expect_fault(&rt, alloc, Wrong::Frame, GhostFault::TooLarge);
    expect_fault(&rt, alloc, Wrong::Slot, GhostFault::TooLarge);
    expect_fault(&rt, alloc, Wrong::Pages, GhostFault::Overlap);
    expect_fault(&rt, alloc, Wrong::Block, GhostFault::TableTwice);
    expect_fault(&rt, alloc, Wrong::TableFrame, GhostFault::TableTwice);
    expect_fault(&rt, alloc, Wrong::Free, GhostFault::FrameTwice);
}

/// Rows of two runs.
fn two(first: u64, count: u64) -> [run_list::Run<Row>; 2] {
    let value = Row {
        owner: Owner(0),
        lent: None,
        usage: Usage::Plain,
    };
    let begun = run_list::Run {
        pages: range(0x40000, 0x10),
        value,
    };
    let next = run_list::Run {
        pages: range(first, count),
        value,
    };
    [begun, next]
}

#[test]
fn refuses_rows_by_name(rt: HostRuntime) {
    let alloc = rt.alloc();
    let over = rows_of(alloc, two(0x4000f, 2).as_slice()).err();
    assert!(rt; over == Some(GhostFault::Overlap));
    let large = rows_of(alloc, two(1 << 63, 1).as_slice()).err();
    assert!(rt; large == Some(GhostFault::TooLarge));
    let fine = rows_of(alloc, two(0x40010, 2).as_slice()).ok();
    assert!(rt; fine.expect(&rt, "rows").runs().len() == 1);
}
