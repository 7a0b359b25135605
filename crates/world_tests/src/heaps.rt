//! Worlds whose tables are in a heap of their own, with room for a number of further tables, or in memory that refuses
//! one request by its number.
use crate::sample::{config, memory};
use call_table::{Refusal, Reply, Step, Value};
use linked_list_allocator::LocalHeap;
use page_state::Entry;
use refusing::Refusing;
use std::alloc::{Allocator, Global};
use std::process::Abort;
use table_tree::Reads;
use world::World;

/// The step, which takes a table of each tree.
const SHARE: Step = Step::ShareHyp { pfn: 0x40100 };

const DONE: Reply = Reply::Done(Value::Nothing);

const NO_MEMORY: Reply = Reply::Refused(Refusal::NoMemory);

/// A world that has just booted, with its tables in a heap.
fn booted<A: Allocator + Copy>(rt: &impl Abort, global: Global, heap: A) -> World<A> {
    let map = memory(global, 0x40).expect(rt, "a memory");
    World::boot(global, heap, &map, config(1, 16)).expect(rt, "a boot")
}

/// Makes a step of CPU 0.
fn made<A: Allocator + Copy>(rt: &impl Abort, world: &mut World<A>, step: Step) -> Reply {
    assert!(rt; 0 < world.cpus());
    world.step(0, step)
}

/// How many bytes of a heap a table takes.
fn table_bytes(rt: &impl Abort, global: Global) -> usize {
    let heap = LocalHeap::new(global, 1 << 17).expect(rt, "memory");
    let mut world = booted(rt, global, &heap);
    let before = heap.used();
    assert!(rt; made(rt, &mut world, SHARE) == DONE);
    let after = heap.used();
    drop(world);
    after.saturating_sub(before) / 2
}

/// Takes blocks of a heap, as many of a size as are granted, up to a number.
fn take_blocks<'a>(
    rt: &impl Abort,
    heap: &'a LocalHeap,
    blocks: &mut Vec<Vec<u8, &'a LocalHeap>>,
    size: usize,
    most: usize,
) {
    for _ in 0..most {
        if let Ok(block) = Vec::<u8, _>::with_capacity(heap, size) {
            blocks.push(block).expect(rt, "memory");
        }
    }
}

/// Takes all of a heap but the room of this number of tables.
fn fill<'a>(
    rt: &impl Abort,
    global: Global,
    heap: &'a LocalHeap,
    tables: usize,
) -> Vec<Vec<u8, &'a LocalHeap>> {
    let mut room = Vec::new(global);
    take_blocks(rt, heap, &mut room, table_bytes(rt, global), tables);
    let mut filling = Vec::new(global);
    for size in [4096usize, 64, 1] {
        take_blocks(rt, heap, &mut filling, size, 64);
    }
    drop(room);
    filling
}

/// Compares the free frames, a look at the host's page, and what an audit finds.
fn expect_state<A: Allocator + Copy>(
    rt: &impl Abort,
    global: Global,
    world: &mut World<A>,
    free: usize,
    is_shared: bool,
) {
    assert!(rt; world.parts().shared.pool.free() == free);
    let look = made(rt, world, Step::HostTranslate { page: 0x40100 });
    assert!(rt; is_shared != (look == Reply::Done(Value::Entry(Entry::Unmapped))));
    let found = world.audit(global, &mut Reads::new()).expect(rt, "memory");
    assert!(rt; found.is_none());
}

/// Shares a page with room for this number of tables, fewer than two, and then for all. A table already taken from the
/// heap remains a spare of its tree.
fn expect_refused(rt: &impl Abort, global: Global, tables: usize) {
    let heap = LocalHeap::new(global, 1 << 17).expect(rt, "memory");
    let mut world = booted(rt, global, &heap);
    let filling = fill(rt, global, &heap, tables);
    let before = heap.used();
    assert!(rt; made(rt, &mut world, SHARE) == NO_MEMORY);
    let had = heap.used().saturating_sub(before);
    assert!(rt; had == tables.wrapping_mul(table_bytes(rt, global)));
    expect_state(rt, global, &mut world, 58, false);
    drop(filling);
    assert!(rt; made(rt, &mut world, SHARE) == DONE);
    expect_state(rt, global, &mut world, 56, true);
    drop(world);
}

#[test]
fn first_table_refused(rt: HostRuntime) {
    expect_refused(&rt, rt.alloc(), 0);
}

/// The host tree's table is had, and the hypervisor tree's is refused.
#[test]
fn second_table_refused(rt: HostRuntime) {
    expect_refused(&rt, rt.alloc(), 1);
}

#[test]
fn both_tables_granted(rt: HostRuntime) {
    let (global, heap) = (rt.alloc(), LocalHeap::new(rt.alloc(), 1 << 17));
    let heap = heap.expect(&rt, "memory");
    let mut world = booted(&rt, global, &heap);
    let filling = fill(&rt, global, &heap, 2);
    assert!(rt; made(&rt, &mut world, SHARE) == DONE);
    expect_state(&rt, global, &mut world, 56, true);
    drop((filling, world));
}

/// The most requests of a share that are refused in turn.
const MOST: u64 = 100;

/// Shares a page with the Nth request for a table's memory refused, for N from 1 until no request is. Each refusal leaves all as
/// it was. Tells how many there were.
fn share_in_turn(rt: &impl Abort, global: Global, heap: &Refusing<Global>) -> u64 {
    let mut world = booted(rt, global, heap);
    for n in 1..MOST {
        heap.refuse_nth(n);
        let reply = made(rt, &mut world, SHARE);
        if heap.is_waiting() {
            heap.refuse_nth(0);
            assert!(rt; reply == DONE);
            expect_state(rt, global, &mut world, 56, true);
            drop(world);
            return n - 1;
        }
        assert!(rt; reply == NO_MEMORY);
        expect_state(rt, global, &mut world, 58, false);
    }
    drop(world);
    MOST
}

/// At least one request of each of the two tables is refused.
#[test]
fn each_request_refused(rt: HostRuntime) {
    let heap = Refusing::new(rt.alloc());
    let refused = share_in_turn(&rt, rt.alloc(), &heap);
    assert!(&rt; refused >= 2 && refused < MOST);
}
