//! Lent parts as the oracle records them.
ghost use Rattle.std.specs.Prelude.{◌≡◌, ◌+◌, ◌<◌, ◌≤◌, ◌^◌, ◌∷◌, length};
ghost use Rattle.hyp_pool.specs.Pools.{IsPool};
ghost use Rattle.page_state.specs.Geometries.{levels_below};
ghost use Rattle.reference_model.specs.help.ChangeLaws.{Fits};
ghost use Rattle.part_types.specs.Apart.{IsApart};
ghost use Rattle.part_types.specs.View.{depth_of};

use crate::sample::{config, memory};
use component::Component;
use ghost_oracle::record::record;
use ghost_spec::cpu::GhostCpu;
use ghost_spec::filled::GhostFault;
use ghost_spec::lists::{GhostLists, GhostRooms};
use ghost_spec::shared::Shared;
use ghost_spec::state::Ghost;
use ghost_trees::tree::Table;
use hyp_pool::{Pool, laws};
use owner_table::OwnerTable;
use page_state::{
    Entry, Frame, Geometry, Kind, Layout, MemoryMap, Owner, Page, PageRange, Prot, Row, Run, State,
    Target, Usage,
};
use part_types::{CpuState, Log, SharedPart};
use reference_model::{Changes, MapChange};
use run_list::RunList;
use std::alloc::Global;
use std::process::Abort;
use table_tree::{Reads, Tree};

/// Takes the lowest frame.
fn taken(pool: &mut Pool) -> Frame
    requires { 0 < length pool.old.frames }
    ensures taken { pool.old.frames ≡ result.0 ∷ pool.new.frames }
    ensures room { pool.new.room ≡ pool.old.room }
    ensures pool { IsPool pool.new }
{
    pool.take().unwrap()
}

/// Trees of their roots alone, and the pool of 14 further frames.
fn roots(rt: &impl Abort, alloc: Global) -> (Component<Global>, Component<Global>, Pool)
    ensures host { levels_below result.0.tree.geometry ≡ 2 }
    ensures hyp { levels_below result.1.tree.geometry ≡ 2 }
    ensures apart { IsApart result.0.tree result.1.tree result.2 }
{
    laws::counted_frames();
    let mut pool = Pool::of(alloc, Frame(0x40600), 16).expect(rt, "memory");
    let host_root = taken(&mut pool);
    let hyp_root = taken(&mut pool);
    let host = Tree::new(alloc, host_root, Geometry::Bits39).expect(rt, "memory");
    let hyp = Tree::new(alloc, hyp_root, Geometry::Bits39).expect(rt, "memory");
    (
        Component::new(alloc, host),
        Component::new(alloc, hyp),
        pool,
    )
}

/// A Shared part of a memory, in which each frame has the row of the host's own.
fn new_shared(rt: &impl Abort, alloc: Global, map: &MemoryMap) -> SharedPart<Global>
    ensures { depth_of result ≡ 2 }
{
    let log = Log::new(alloc, 5).expect(rt, "memory");
    let rows = OwnerTable::of(alloc, map).expect(rt, "memory");
    let (host, hyp, pool) = roots(rt, alloc);
    SharedPart {
        host,
        hyp,
        pool,
        owners: rows,
        log,
    }
}

/// The host's pages of the frames become the hypervisor's.
fn host_change() -> MapChange
    ensures { Fits 2 result }
{
    MapChange {
        range: PageRange {
            first: Page(0x40600),
            count: 16,
        },
        entry: Entry::Annotated(Owner(1)),
    }
}

/// The hypervisor maps the frames.
fn hyp_change() -> MapChange
    ensures { Fits 2 result }
{
    MapChange {
        range: PageRange {
            first: Page(0x404_0600),
            count: 16,
        },
        entry: Entry::Leaf {
            frame: Frame(0x40600),
            prot: Prot::RW,
            kind: Kind::Normal,
            state: State::Owned,
        },
    }
}

/// Makes these changes.
fn change(rt: &impl Abort, alloc: Global, shared: &mut SharedPart<Global>)
    requires { depth_of shared.old ≡ 2 }
{
    let changes = Changes {
        host: Some(host_change()),
        hyp: Some(hyp_change()),
        ..Changes::NONE
    };
    shared
        .change(alloc, &changes)
        .expect(rt, "memory and frames");
}

/// A Shared part after these changes.
fn shared(rt: &impl Abort, alloc: Global, map: &MemoryMap) -> SharedPart<Global> {
    let mut shared = new_shared(rt, alloc, map);
    change(rt, alloc, &mut shared);
    shared
}

/// A hand of three frames.
const HAND: PageRange = PageRange {
    first: Page(0x40100),
    count: 3,
};

/// CPU 1, with a hand.
fn own_state(rt: &impl Abort, alloc: Global, hand: PageRange) -> CpuState
    ensures { result.id ≡ 1 }
{
    CpuState {
        id: 1,
        loaded: None,
        hand: Some(hand),
        ticket: None,
        log: Log::new(alloc, 7).expect(rt, "memory"),
    }
}

/// A carve-out of 16 frames, and two CPUs.
fn layout(rt: &impl Abort, alloc: Global) -> Layout
    ensures { result.config.cpus ≡ 2 }
{
    Layout {
        map: memory(alloc, 16).expect(rt, "a memory"),
        config: config(2, 9),
        geometry: Geometry::Bits39,
    }
}

/// Compares the runs of the host's map.
fn expect_host_runs(rt: &impl Abort, told: &[Run]) {
    let runs = [Run {
        pages: host_change().range,
        target: Target::Annotated(Owner(1)),
    }];
    assert!(rt; told == runs.as_slice());
}

/// Compares the tables of the hypervisor's tree.
fn expect_hyp_tables(rt: &impl Abort, told: &[Table]) {
    let tables = [
        Table {
            block: (3, 0),
            frame: 0x40601,
        },
        Table {
            block: (2, 257),
            frame: 0x40604,
        },
        Table {
            block: (1, 131_587),
            frame: 0x40605,
        },
    ];
    assert!(rt; told == tables.as_slice());
}

/// Compares the free frames.
fn expect_free(rt: &impl Abort, told: &[u64]) {
    assert!(rt; told.first().copied() == Some(0x40606));
    assert!(rt; told.len() == 10);
}

/// Compares the row of a frame, and that there is none after the memory.
fn expect_rows(rt: &impl Abort, told: &RunList<Row>) {
    let row = Row {
        owner: Owner(0),
        lent: None,
        usage: Usage::Plain,
    };
    assert!(rt; told.at(Page(0x40600)) == Some(row));
    assert!(rt; told.at(Page(0x40800)).is_none());
}

/// Compares the record of the Shared part.
fn expect_shared(rt: &impl Abort, told: &Shared) {
    expect_host_runs(rt, told.host.runs.as_slice());
    expect_hyp_tables(rt, told.hyp.tables.as_slice());
    expect_free(rt, told.free.as_slice());
    expect_rows(rt, &told.rows);
}

/// Compares the record of CPUs, the second of which has a hand.
fn expect_cpus(rt: &impl Abort, told: &[GhostCpu]) {
    let held = GhostCpu {
        hand: Some(HAND),
        ..GhostCpu::NONE
    };
    let cpus = [GhostCpu::NONE, held];
    assert!(rt; told == cpus.as_slice());
}

/// Compares the rooms of the logs of the VM part, of the Shared part and of CPUs.
fn expect_rooms(rt: &impl Abort, told: &GhostRooms, vms: u64, shared: u64, cpus: &[u64]) {
    assert!(rt; told.vms == vms);
    assert!(rt; told.shared == shared);
    assert!(rt; told.cpus.as_slice() == cpus);
}

/// Compares the record of CPUs, logs and parts that aren't given.
fn expect_rest(rt: &impl Abort, told: &GhostLists) {
    expect_cpus(rt, told.cpus.as_slice());
    expect_rooms(rt, &told.rooms, 9, 5, [9, 7].as_slice());
    assert!(rt; told.vms.len() == 64);
    assert!(rt; told.guests.len() == 64);
}

/// What is recorded of that Shared part and of the second CPU.
fn shared_recorded(rt: &impl Abort, alloc: Global, layout: &Layout) -> GhostLists
    requires { layout.now.config.cpus ≡ 2 }
{
    let own = own_state(rt, alloc, HAND);
    let shared = shared(rt, alloc, &layout.map);
    let reads = &mut Reads::new();
    record(alloc, layout, None, Some(&shared), None, &own, reads).expect(rt, "memory")
}

#[test]
fn records_what_is_given_alone(rt: HostRuntime) {
    let layout = layout(&rt, rt.alloc());
    let told = shared_recorded(&rt, rt.alloc(), &layout);
    expect_shared(&rt, &told.shared);
    expect_rest(&rt, &told);
}

/// What is recorded of the second CPU alone, with a hand.
fn own_recorded(rt: &impl Abort, alloc: Global, layout: &Layout, hand: PageRange) -> GhostLists
    requires { layout.now.config.cpus ≡ 2 }
{
    let own = own_state(rt, alloc, hand);
    record::<Global>(alloc, layout, None, None, None, &own, &mut Reads::new()).expect(rt, "memory")
}

/// A hand that no call leads to: frames from 2^63 on.
const FAR: PageRange = PageRange {
    first: Page(1 << 63),
    count: 3,
};

#[test]
fn records_what_no_call_leads_to(rt: HostRuntime) {
    let alloc = rt.alloc();
    let layout = layout(&rt, alloc);
    let near = own_recorded(&rt, alloc, &layout, HAND);
    assert!(&rt; Ghost::of(alloc, &near).is_ok());
    let far = own_recorded(&rt, alloc, &layout, FAR);
    let fault = Ghost::of(alloc, &far).err();
    assert!(&rt; fault == Some(GhostFault::TooLarge));
}
