//! The faults of states that no run reaches.
use crate::changes::{Change, changed, leaf, row};
use crate::walks::{is_legal_but_for_trees, told, walk};
use Change::*;
use descriptor::{Kind, Owner, Prot, State};
use ghost_spec::state::Ghost;
use page_state::{Entry, Lent, Row as OwnerRow, Usage};
use std::alloc::Global;
use std::process::Abort;
use std::test::Fail;

/// The lives of a protected and of a plain VM, a hand, and pages shared with and given to the hypervisor.
const LIFE: &str = "memory 0x40000 0x800
carve 0x40600 0x40
cpus 3
boot
0 vm_reserve protected 2
0 fund 0x40200 4
0 install
0 vm_open
0 vcpu_load 0.1 0
0 donate_guest 0x40100 0x80000 1
0 donate_guest 0x40101 0x80001 1
0 guest_share_host 0x80001
1 vm_reserve plain 1
1 fund 0x40210 4
1 install
1 vm_open
1 vcpu_load 1.1 0
1 share_guest 0x40300 0x90 rwx 2
0 share_hyp 0x40400
0 donate_hyp 0x40410 2
2 vm_reserve plain 1
2 fund 0x40220 3
0 host_abort 0x40500
";

/// The state of those lives after a change.
fn life_with(rt: &impl Abort, alloc: Global, change: Change) -> Ghost {
    let (state, ok) = walk(rt, alloc, LIFE);
    assert!(rt; ok == 19);
    let lists = changed(rt, alloc, state, change);
    let made = Ghost::of(alloc, &lists);
    drop(lists);
    made.expect(rt, "a state")
}

/// Its report.
fn told_of(rt: &impl Abort, alloc: Global, change: Change) -> String {
    let state = life_with(rt, alloc, change);
    told(rt, alloc, &state)
}

/// Fails if such a state isn't legal, whatever tables its trees need.
fn expect_legal_but_for_trees(rt: &impl Abort, alloc: Global, change: Change) {
    let state = life_with(rt, alloc, change);
    assert!(rt; is_legal_but_for_trees(rt, alloc, &state));
}

/// Compares the text of each change, a line each.
fn expect_told(rt: &impl Abort, alloc: Global, changes: &[Change], wanted: &str) {
    let mut text = String::new(alloc);
    for change in changes {
        let line = told_of(rt, alloc, *change);
        text.push_str(line.as_str()).expect(rt, "memory");
        text.push('\n').expect(rt, "memory");
    }
    assert_eq!(rt; text.as_str(), wanted);
}

#[test]
fn faults_of_what_is_held(rt: HostRuntime) -> Result<(), Fail> {
    let normal = Kind::Normal;
    let changes = [
        FreeTable,
        TableOfHost,
        PoolLost,
        HandTwice,
        Guest(0x200, leaf(0x40100, Prot::RWX, normal, State::Owned)),
        Guest(0x93, leaf(0x9000, Prot::RWX, normal, State::Owned)),
        Guest(0x93, leaf(0x40500, Prot::RWX, Kind::Device, State::Owned)),
        Guest(
            0x8000000,
            leaf(0x40500, Prot::RWX, normal, State::SharedBorrowed),
        ),
    ];
    let wanted = "held twice 0x40602: table host 2 0x1, shared pool
no condition 0x40500: host leaf 0x40500 rwx normal owned, hyp unmapped, row owner 0 lent - use plain, table host 1 0x202
no condition 0x4063f: host annot 1, hyp leaf 0x4063f rw normal owned, row owner 1 lent - use shared_pool
held twice 0x40220: hand of cpu 0, hand of cpu 2
held twice 0x40100: guest 0 0x80000 owned, guest 1 0x200 owned
no condition 0x9000: host unmapped, hyp unmapped, no memory, guest 1 0x93 owned
guest 1 0x93: no memory page, or past the input pages
guest 1 0x8000000: no memory page, or past the input pages
";
    expect_told(&rt, rt.alloc(), changes.as_slice(), wanted);
    Ok(())
}

#[test]
fn faults_of_frames(rt: HostRuntime) -> Result<(), Fail> {
    let normal = Kind::Normal;
    let lent = Lent {
        owner: Owner(3),
        page: 0x92,
    };
    let other = OwnerRow {
        owner: Owner(0),
        lent: Some(lent),
        usage: Usage::Plain,
    };
    let changes = [
        Host(0x40500, leaf(0x40502, Prot::RWX, normal, State::Owned)),
        Host(0x40601, leaf(0x40601, Prot::RWX, normal, State::Owned)),
        Host(0x40500, Entry::Annotated(Owner(200))),
        Host(
            0x40500,
            leaf(0x40500, Prot::RWX, normal, State::SharedOwned),
        ),
        Host(0x40400, leaf(0x40400, Prot::RWX, normal, State::Owned)),
        Host(0x9000, leaf(0x9000, Prot::RWX, normal, State::Owned)),
        Hyp(0x4040410, leaf(0x40410, Prot::RWX, normal, State::Owned)),
        Hyp(0x3ffffff, leaf(0x40500, Prot::RW, normal, State::Owned)),
        Row(0x40500, row(1, Usage::Plain)),
        Row(0x40610, row(1, Usage::VmPool(1))),
        Row(0x40301, other),
    ];
    let wanted =
        "no condition 0x40500: host leaf 0x40502 rwx normal owned, hyp unmapped, row owner 0 lent - use plain
no condition 0x40601: host leaf 0x40601 rwx normal owned, hyp leaf 0x40601 rw normal owned, row owner 1 lent - use shared_pool, table hyp 3 0x0
no condition 0x40500: host annot 200, hyp unmapped, row owner 0 lent - use plain
no condition 0x40500: host leaf 0x40500 rwx normal shared_owned, hyp unmapped, row owner 0 lent - use plain
no condition 0x40400: host leaf 0x40400 rwx normal owned, hyp leaf 0x40400 rw normal shared_borrowed, row owner 0 lent 1:0x4040400 use plain
no condition 0x9000: host leaf 0x9000 rwx normal owned, hyp unmapped, no memory
no condition 0x40410: host annot 1, hyp leaf 0x40410 rwx normal owned, row owner 1 lent - use plain
hyp 0x3ffffff: below the pages of frames
no condition 0x40500: host leaf 0x40500 rwx normal owned, hyp unmapped, row owner 1 lent - use plain
no condition 0x40610: host annot 1, hyp leaf 0x40610 rw normal owned, row owner 1 lent - use vm_pool 1, shared pool
no condition 0x40301: host leaf 0x40301 rwx normal shared_owned, hyp unmapped, row owner 0 lent 3:0x92 use plain, guest 1 0x91 shared_borrowed
";
    expect_told(&rt, rt.alloc(), changes.as_slice(), wanted);
    Ok(())
}

#[test]
fn faults_of_slots_and_trees(rt: HostRuntime) -> Result<(), Fail> {
    let changes = [
        HandEmpty,
        VacantLive,
        OtherGeneration,
        Load,
        Vcpu,
        Ticket,
        TwoTickets,
        NoTicket,
        EmptyPool,
        NoRoot,
        Outside,
        Lacking,
        Needless,
    ];
    let wanted = "cpu 0: hand without a frame
slot 1: guest does not fit it
slot 1: guest does not fit it
cpu 2: its slot has no such vcpu loaded
slot 0 vcpu 1: not loaded on that cpu
cpu 2: ticket does not fit its slot
slot 2: not exactly one ticket
slot 2: not exactly one ticket
guest 5: Empty with something, or without a root
guest 1: Empty with something, or without a root
outside table host 2 0x200
missing table host 1 0x202
needless table host 1 0x100
";
    expect_told(&rt, rt.alloc(), changes.as_slice(), wanted);
    Ok(())
}

#[test]
fn tables_of_another_policy(rt: HostRuntime) -> Result<(), Fail> {
    expect_legal_but_for_trees(&rt, rt.alloc(), Lacking);
    expect_legal_but_for_trees(&rt, rt.alloc(), Needless);
    Ok(())
}
