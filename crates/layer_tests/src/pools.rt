//! Pools of free frames.
ghost use Rattle.std.specs.Prelude.{◌≡◌, [], ◌∷◌};

use super::expect::expect_same;
use hyp_pool::{Pool, PoolFault};
use page_state::Frame;
use std::alloc::{AllocError, Global};
use std::process::Abort;

/// The free frames of a pool.
fn told(rt: &impl Abort, alloc: Global, pool: &Pool) -> Vec<u64> {
    let mut out = Vec::new(alloc);
    for frame in pool.frames() {
        out.push(frame.0).expect(rt, "memory");
    }
    out
}

/// Compares the free frames.
fn expect_told(rt: &impl Abort, alloc: Global, pool: &Pool, wanted: &[u64]) {
    let found = told(rt, alloc, pool);
    expect_same(rt, &found.as_slice(), &wanted);
}

/// Compares how many frames are free, and for how many there is room.
fn expect_counts(rt: &impl Abort, pool: &Pool, free: usize, room: usize) {
    assert!(rt; pool.free() == free);
    assert!(rt; pool.room() == room);
}

/// Takes a frame, and compares it.
fn expect_taken(rt: &impl Abort, pool: &mut Pool, wanted: Option<Frame>) {
    expect_same(rt, &pool.take(), &wanted);
}

/// Gives frames 6 and 5 back to a pool of frame 7 alone.
fn give_six_and_five(pool: &mut Pool)
    requires frames { pool.old.frames ≡ 7 ∷ [] }
    requires room { pool.old.room ≡ 3 }
{
    pool.give(Frame(6));
    pool.give(Frame(5));
}

#[test]
fn takes_the_lowest_frames_all_or_none(rt: HostRuntime) {
    let mut pool = Pool::of(rt.alloc(), Frame(5), 3).expect(&rt, "memory");
    let taken = pool.take_many(rt.alloc(), 2).expect(&rt, "frames");
    assert!(rt; taken.as_slice() == [Frame(5), Frame(6)].as_slice());
    expect_counts(&rt, &pool, 1, 3);
    let fault = pool.take_many(rt.alloc(), 2).err();
    assert!(rt; fault == Some(PoolFault::NoPool));
    expect_counts(&rt, &pool, 1, 3);
    let none = pool.take_many(rt.alloc(), 0).expect(&rt, "no frames");
    assert!(rt; none.is_empty());
}

#[test]
fn takes_what_came_back_lowest_first(rt: HostRuntime) {
    let mut pool = Pool::of(rt.alloc(), Frame(5), 3).expect(&rt, "memory");
    let _taken = pool.take_many(rt.alloc(), 2).expect(&rt, "frames");
    give_six_and_five(&mut pool);
    expect_told(&rt, rt.alloc(), &pool, [5, 6, 7].as_slice());
    for number in 5..8 {
        expect_taken(&rt, &mut pool, Some(Frame(number)));
    }
    expect_taken(&rt, &mut pool, None);
    expect_counts(&rt, &pool, 0, 3);
}

#[test]
fn grows_its_room(rt: HostRuntime) {
    let mut pool = Pool::of(rt.alloc(), Frame(5), 3).expect(&rt, "memory");
    pool.grow(2).expect(&rt, "memory");
    expect_counts(&rt, &pool, 3, 3);
    pool.grow(100).expect(&rt, "memory");
    expect_counts(&rt, &pool, 3, 100);
    expect_told(&rt, rt.alloc(), &pool, [5, 6, 7].as_slice());
}

/// Compares the text of a fault.
fn expect_text(rt: &impl Abort, alloc: Global, fault: PoolFault, wanted: &str) {
    let text = format!(in alloc; "{fault}").expect(rt, "memory");
    expect_same(rt, &text.as_str(), &wanted);
}

#[test]
fn tells_its_faults(rt: HostRuntime) {
    let alloc = rt.alloc();
    expect_text(&rt, alloc, PoolFault::NoPool, "too few free frames");
    expect_text(&rt, alloc, PoolFault::from(AllocError), "out of memory");
}
