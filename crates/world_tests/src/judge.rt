//! What the judge says of a step.
ghost use Rattle.std.specs.Prelude.{◌≡◌, ◌<◌};

use crate::expect::expect_told;
use crate::sample::{memory, started};
use call_table::{Refusal, Reply, Step, Value, VmKind};
use ghost_judge::disagreement::{Disagreement, GuestHead, PartDifference, TreeOf};
use ghost_judge::judge::{differs, judge};
use ghost_spec::lists::GhostLists;
use ghost_spec::parts::GhostPhase;
use ghost_spec::state::{Ghost, has_next_generation};
use ghost_trees::tree::Table;
use page_state::{Entry, Frame, Kind, Owner, Page, PageRange, Prot, Row, State, Usage};
use std::alloc::Global;
use std::process::Abort;

/// The boot state of two CPUs.
fn booted(rt: &impl Abort, alloc: Global) -> Ghost
    ensures { result.layout.config.cpus ≡ 2 }
{
    let map = memory(alloc, 0x40).expect(rt, "a memory");
    let made = started(alloc, map, 2, 64).expect(rt, "memory");
    made.expect(rt, "enough frames")
}

/// The one part of a state that changes.
#[derive(Clone, Copy)]
enum Change {
    Nothing,
    Pool,
    Table,
    Guest,
    Slot,
    Cpu,
    Room,
}

/// The frame that the second CPU holds.
const HELD: PageRange = PageRange {
    first: Page(0x40100),
    count: 1,
};

/// A table of the hypervisor that the boot state hasn't.
const TABLE: Table = Table {
    block: (0, 5),
    frame: 0x4063f,
};

/// The last free frame is missing.
const MISSING: Disagreement = Disagreement::SharedPart(PartDifference::Free {
    kept: None,
    walked: Some(0x4063f),
});

/// That table is there.
const LINKED: Disagreement = Disagreement::SharedPart(PartDifference::Table {
    tree: TreeOf::Hyp,
    block: (0, 5),
    kept: Some(0x4063f),
    walked: None,
});

/// An Empty guest of a generation.
fn empty(generation: u64) -> GuestHead {
    GuestHead {
        phase: GhostPhase::Empty,
        generation,
        kind: VmKind::Plain,
    }
}

/// Makes a change.
fn make(rt: &impl Abort, lists: &mut GhostLists, change: Change) {
    assert!(rt; lists.guests.len() == 64 && lists.vms.len() == 64);
    assert!(rt; lists.cpus.len() == 2);
    match change {
        Change::Nothing => {}
        Change::Pool => {
            lists.shared.free.pop();
        }
        Change::Table => lists.shared.hyp.tables.push(TABLE).expect(rt, "memory"),
        Change::Guest => lists.guests[3].generation = 9,
        Change::Slot => lists.vms[3].generation = 9,
        Change::Cpu => lists.cpus[1].hand = Some(HELD),
        Change::Room => lists.rooms.shared = 99,
    }
}

/// A state with a change.
fn changed(rt: &impl Abort, alloc: Global, state: &Ghost, change: Change) -> Ghost {
    let mut lists = state.copied(alloc).expect(rt, "memory").into_lists();
    make(rt, &mut lists, change);
    Ghost::of(alloc, &lists).ok().expect(rt, "a state")
}

/// Compares the first difference from this state of one that is changed.
fn expect_change_of(
    rt: &impl Abort,
    alloc: Global,
    spec: &Ghost,
    change: Change,
    wanted: Option<Disagreement>,
) {
    let post = changed(rt, alloc, spec, change);
    expect_told(rt, differs(&post, spec), wanted);
}

/// Compares the first difference from the boot state of one that is changed.
fn expect_change(rt: &impl Abort, alloc: Global, change: Change, wanted: Option<Disagreement>) {
    let spec = booted(rt, alloc);
    expect_change_of(rt, alloc, &spec, change, wanted);
}

#[test]
fn tells_the_part_that_differs(rt: HostRuntime) {
    let alloc = rt.alloc();
    expect_change(&rt, alloc, Change::Nothing, None);
    expect_change(&rt, alloc, Change::Room, None);
    expect_change(&rt, alloc, Change::Pool, Some(MISSING));
    expect_change(&rt, alloc, Change::Table, Some(LINKED));
    let older = PartDifference::Head {
        kept: empty(9),
        walked: empty(0),
    };
    expect_change(
        &rt,
        alloc,
        Change::Guest,
        Some(Disagreement::GuestPart(3, older)),
    );
    expect_change(&rt, alloc, Change::Slot, Some(Disagreement::Vm(3)));
    expect_change(&rt, alloc, Change::Cpu, Some(Disagreement::Cpu(1)));
}

/// Compares the judgement of a step of this state that makes this change alone.
fn expect_judged_of(
    rt: &impl Abort,
    alloc: Global,
    pre: &Ghost,
    step: Step,
    reply: Reply,
    change: Change,
    wanted: Option<Disagreement>,
)
    requires { 0 < pre.now.layout.config.cpus }
{
    let post = changed(rt, alloc, pre, change);
    assert!(rt; has_next_generation(pre, 0, step));
    let told = judge(alloc, pre, 0, step, &reply, &post).expect(rt, "memory");
    expect_told(rt, told, wanted);
}

/// Compares the judgement of a step of the boot state that makes this change alone.
fn expect_judged(
    rt: &impl Abort,
    alloc: Global,
    step: Step,
    reply: Reply,
    change: Change,
    wanted: Option<Disagreement>,
) {
    let pre = booted(rt, alloc);
    expect_judged_of(rt, alloc, &pre, step, reply, change, wanted);
}

/// The share of a page of the host, which is made.
const SHARE: Step = Step::ShareHyp { pfn: 0x40100 };

/// The share of a page of the carve-out, which is refused.
const CARVED: Step = Step::ShareHyp { pfn: 0x40600 };

/// A question.
const ASKS: Step = Step::OwnerOf { pfn: 0x40100 };

const DONE: Reply = Reply::Done(Value::Nothing);

const PERM: Reply = Reply::Refused(Refusal::Perm);

const SHORT: Reply = Reply::Refused(Refusal::NoMemory);

#[test]
fn judges_replies(rt: HostRuntime) {
    let alloc = rt.alloc();
    let wrong = Some(Disagreement::Reply {
        said: PERM,
        spec: DONE,
    });
    let free = Some(MISSING);
    expect_judged(&rt, alloc, SHARE, PERM, Change::Nothing, wrong);
    expect_judged(&rt, alloc, CARVED, PERM, Change::Nothing, None);
    expect_judged(&rt, alloc, CARVED, PERM, Change::Pool, free);
}

#[test]
fn judges_state_that_stayed(rt: HostRuntime) {
    let stayed = Some(Disagreement::Map {
        tree: TreeOf::Host,
        page: 0x40100,
        kept: Entry::Unmapped,
        walked: Entry::Leaf {
            frame: Frame(0x40100),
            prot: Prot::RWX,
            kind: Kind::Normal,
            state: State::SharedOwned,
        },
    });
    expect_judged(&rt, rt.alloc(), SHARE, DONE, Change::Nothing, stayed);
}

#[test]
fn judges_want_of_memory(rt: HostRuntime) {
    let alloc = rt.alloc();
    let refused = Some(Disagreement::Reply {
        said: SHORT,
        spec: PERM,
    });
    let row = Row {
        owner: Owner(0),
        lent: None,
        usage: Usage::Plain,
    };
    let told = Some(Disagreement::Reply {
        said: SHORT,
        spec: Reply::Done(Value::Row(row)),
    });
    let free = Some(MISSING);
    expect_judged(&rt, alloc, SHARE, SHORT, Change::Nothing, None);
    expect_judged(&rt, alloc, SHARE, SHORT, Change::Pool, free);
    expect_judged(&rt, alloc, CARVED, SHORT, Change::Nothing, refused);
    expect_judged(&rt, alloc, ASKS, SHORT, Change::Nothing, told);
}
