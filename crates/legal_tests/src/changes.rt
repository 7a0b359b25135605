//! States that no run reaches, each by one change of a legal one.
ghost use Rattle.std.specs.Prelude.{◌≡◌, true};
ghost use Rattle.page_state.specs.Rows.{HasPageBelow};
ghost use Rattle.page_state.specs.Runs.{IsCoarsest};
ghost use Rattle.ghost_trees.specs.Small.{AreSmall, HasLowFrames};

use call_table::VmId;
use descriptor::{Frame, Kind, Owner, Prot, State};
use ghost_spec::cpu::GhostCpu;
use ghost_spec::lists::GhostLists;
use ghost_spec::parts::{GhostGuest, GhostSlot, GhostStand};
use ghost_spec::state::Ghost;
use ghost_trees::blocks::Block;
use ghost_trees::runs::updated;
use ghost_trees::tree::{Table, table_at};
use page_state::{Entry, Page, PageRange, Row, Run, Usage};
use reference_model::{Loaded, Stage};
use std::alloc::Global;
use std::process::Abort;

/// A slot.
fn slot<'a>(rt: &impl Abort, lists: &'a mut GhostLists, number: usize) -> &'a mut GhostSlot {
    assert!(rt; number < lists.vms.len());
    &mut lists.vms[number]
}

/// A guest.
fn guest<'a>(rt: &impl Abort, lists: &'a mut GhostLists, number: usize) -> &'a mut GhostGuest {
    assert!(rt; number < lists.guests.len());
    &mut lists.guests[number]
}

/// A CPU's own state.
fn cpu<'a>(rt: &impl Abort, lists: &'a mut GhostLists, number: usize) -> &'a mut GhostCpu {
    assert!(rt; number < lists.cpus.len());
    &mut lists.cpus[number]
}

/// Some frames from one on.
fn range(first: u64, count: u64) -> PageRange
    ensures first { result.first.0 ≡ first }
    ensures count { result.count ≡ count }
{
    PageRange {
        first: Page(first),
        count,
    }
}

/// A row lent to nobody.
pub(crate) fn row(owner: u64, usage: Usage) -> Row {
    Row {
        owner: Owner(owner),
        lent: None,
        usage,
    }
}

/// A leaf.
pub(crate) fn leaf(frame: u64, prot: Prot, kind: Kind, state: State) -> Entry {
    Entry::Leaf {
        frame: Frame(frame),
        prot,
        kind,
        state,
    }
}

/// A change of a state.
#[derive(Clone, Copy)]
pub(crate) enum Change {
    /// A table's frame is free too.
    FreeTable,
    /// A table is in a frame that the host owns.
    TableOfHost,
    /// A frame of the pool has gone.
    PoolLost,
    /// Two CPUs have one hand.
    HandTwice,
    /// A hand without a frame.
    HandEmpty,
    /// A live guest in a vacant slot.
    VacantLive,
    /// A guest of another generation than its slot's.
    OtherGeneration,
    /// The host's page has an entry.
    Host(u64, Entry),
    /// The hypervisor's page of a frame has an entry.
    Hyp(u64, Entry),
    /// A page of the guest of slot 1 has an entry.
    Guest(u64, Entry),
    /// A frame has a row.
    Row(u64, Row),
    /// A CPU has loaded what the slot doesn't name.
    Load,
    /// The slot names a CPU that hasn't loaded it.
    Vcpu,
    /// A ticket's stage isn't that of its slot.
    Ticket,
    /// Two CPUs have a ticket of one slot.
    TwoTickets,
    /// None has.
    NoTicket,
    /// An Empty guest has a pool.
    EmptyPool,
    /// A guest has no root.
    NoRoot,
    /// A table is at no block of the tree.
    Outside,
    /// A table is gone that is needed.
    Lacking,
    /// A table is there though one word would do.
    Needless,
}

/// Tables without those of a frame.
fn tables_without(rt: &impl Abort, alloc: Global, tables: &[Table], frame: u64) -> Vec<Table> {
    let mut left = Vec::new(alloc);
    for table in tables {
        if table.frame != frame {
            left.push(*table).expect(rt, "memory");
        }
    }
    left
}

/// Whether the frame of an entry is small.
fn is_low(entry: Entry) -> bool
    ensures { result ≡ true → HasLowFrames entry 1 }
{
    match entry {
        Entry::Leaf { frame, .. } => frame.0 < 0x1_0000_0000,
        _ => true,
    }
}

/// Runs whose page has an entry.
fn put(rt: &impl Abort, alloc: Global, runs: &[Run], page: u64, entry: Entry) -> Vec<Run>
    requires small { AreSmall runs.now }
    requires coarsest { IsCoarsest runs.now }
{
    assert!(rt; page < 0x1_0000_0000);
    assert!(rt; is_low(entry));
    let made = updated(alloc, runs, range(page, 1), entry);
    made.expect(rt, "memory")
}

/// A state whose host has an entry at a page.
fn with_host(rt: &impl Abort, alloc: Global, state: Ghost, page: u64, entry: Entry) -> GhostLists {
    let mut lists = state.into_lists();
    let made = put(rt, alloc, lists.shared.host.runs.as_slice(), page, entry);
    lists.shared.host.runs = made;
    lists
}

/// A state whose hypervisor has an entry at a page.
fn with_hyp(rt: &impl Abort, alloc: Global, state: Ghost, page: u64, entry: Entry) -> GhostLists {
    let mut lists = state.into_lists();
    let made = put(rt, alloc, lists.shared.hyp.runs.as_slice(), page, entry);
    lists.shared.hyp.runs = made;
    lists
}

/// A state in which the guest of slot 1 has an entry at a page.
fn with_guest(rt: &impl Abort, alloc: Global, state: Ghost, page: u64, entry: Entry) -> GhostLists {
    let mut lists = state.into_lists();
    let guests = lists.guests.as_slice();
    let made = put(rt, alloc, guests[1].tree.runs.as_slice(), page, entry);
    guest(rt, &mut lists, 1).tree.runs = made;
    lists
}

/// Whether the page to which a row is lent is small.
fn is_low_row(row: Row) -> bool
    ensures { result ≡ true → HasPageBelow row 1 }
{
    match row.lent {
        Some(lent) => lent.page < 0x1_0000_0000,
        None => true,
    }
}

/// A state in which a frame has a row.
fn with_row(rt: &impl Abort, state: Ghost, frame: u64, row: Row) -> GhostLists {
    assert!(rt; frame < 0x1_0000_0000);
    assert!(rt; is_low_row(row));
    let mut lists = state.into_lists();
    lists.shared.rows.reserve(2).expect(rt, "memory");
    lists.shared.rows.set(range(frame, 1), Some(row));
    lists
}

/// A state whose CPUs or slots disagree.
fn with_slots(rt: &impl Abort, alloc: Global, state: Ghost, change: Change) -> GhostLists {
    let mut lists = state.into_lists();
    match change {
        Change::HandTwice => {
            let hand = cpu(rt, &mut lists, 2).hand;
            cpu(rt, &mut lists, 0).hand = hand;
        }
        Change::HandEmpty => cpu(rt, &mut lists, 0).hand = Some(range(0x40220, 0)),
        Change::VacantLive => {
            slot(rt, &mut lists, 1).stand = GhostStand::Vacant;
            slot(rt, &mut lists, 1).loaded = Vec::new(alloc);
            cpu(rt, &mut lists, 1).loaded = None;
        }
        Change::OtherGeneration => guest(rt, &mut lists, 1).generation = 2,
        Change::Load => {
            let vm = VmId {
                slot: 0,
                generation: 1,
            };
            cpu(rt, &mut lists, 2).loaded = Some(Loaded { vm, vcpu: 1 });
        }
        Change::Vcpu => slot(rt, &mut lists, 0)
            .loaded
            .push(Some(2))
            .expect(rt, "memory"),
        Change::Ticket => {
            let mut ticket = cpu(rt, &mut lists, 2).ticket.expect(rt, "a ticket");
            ticket.stage = Stage::Installed;
            cpu(rt, &mut lists, 2).ticket = Some(ticket);
        }
        Change::TwoTickets => {
            let ticket = cpu(rt, &mut lists, 2).ticket;
            cpu(rt, &mut lists, 0).ticket = ticket;
        }
        Change::NoTicket => cpu(rt, &mut lists, 2).ticket = None,
        Change::EmptyPool => guest(rt, &mut lists, 5)
            .free
            .push(0x40500)
            .expect(rt, "memory"),
        _ => (),
    }
    lists
}

/// The frame of a table.
fn frame_of(rt: &impl Abort, tables: &[Table], block: Block) -> u64 {
    table_at(tables, block).expect(rt, "a table")
}

/// A state whose tables or free frames are others.
fn with_tables(rt: &impl Abort, alloc: Global, state: Ghost, change: Change) -> GhostLists {
    let mut lists = state.into_lists();
    let tables = lists.shared.host.tables.as_slice();
    let lower = frame_of(rt, tables, (1, 0x40400 / 512));
    let upper = frame_of(rt, tables, (2, 0x40400 / 0x40000));
    match change {
        Change::FreeTable => lists.shared.free.push(upper).expect(rt, "memory"),
        Change::TableOfHost => {
            lists.shared.host.tables = tables_without(rt, alloc, tables, lower);
            let frame = 0x40500;
            let block = (1, 0x40400 / 512);
            lists
                .shared
                .host
                .tables
                .push(Table { block, frame })
                .expect(rt, "memory");
        }
        Change::PoolLost => {
            let frame = lists.shared.free.pop();
            assert!(rt; frame.is_some());
        }
        Change::NoRoot => {
            let guests = lists.guests.as_slice();
            let root = frame_of(rt, guests[1].tree.tables.as_slice(), (3, 0));
            let left = tables_without(rt, alloc, guests[1].tree.tables.as_slice(), root);
            guest(rt, &mut lists, 1).tree.tables = left;
        }
        Change::Outside => {
            let block = (2, 512);
            let frame = 0x40610;
            lists
                .shared
                .host
                .tables
                .push(Table { block, frame })
                .expect(rt, "memory");
        }
        Change::Lacking => {
            lists.shared.host.tables = tables_without(rt, alloc, tables, lower);
            lists.shared.free.push(lower).expect(rt, "memory");
        }
        Change::Needless => {
            let frame = lists.shared.free.pop().expect(rt, "a frame");
            let block = (1, 0x100);
            lists
                .shared
                .host
                .tables
                .push(Table { block, frame })
                .expect(rt, "memory");
        }
        _ => (),
    }
    lists
}

/// A state after a change.
pub(crate) fn changed(rt: &impl Abort, alloc: Global, state: Ghost, change: Change) -> GhostLists {
    match change {
        Change::Host(page, entry) => with_host(rt, alloc, state, page, entry),
        Change::Hyp(page, entry) => with_hyp(rt, alloc, state, page, entry),
        Change::Guest(page, entry) => with_guest(rt, alloc, state, page, entry),
        Change::Row(frame, row) => with_row(rt, state, frame, row),
        Change::FreeTable
        | Change::TableOfHost
        | Change::PoolLost
        | Change::NoRoot
        | Change::Outside
        | Change::Lacking
        | Change::Needless => with_tables(rt, alloc, state, change),
        _ => with_slots(rt, alloc, state, change),
    }
}
