//! Worlds.
mod lent;
mod merging;
mod poked;

use crate::sample::{config, memory};
use page_state::{Config, MemoryMap};
use std::alloc::Global;
use std::process::Abort;
use world::World;

/// A world of a memory at boot.
fn world_of(rt: &impl Abort, alloc: Global, map: &MemoryMap, config: Config) -> World<Global> {
    World::boot(alloc, alloc, map, config).expect(rt, "a world")
}

/// A world with a carve-out of 64 frames, one CPU and such logs.
fn booted(rt: &impl Abort, alloc: Global, log: u64) -> World<Global> {
    let map = memory(alloc, 0x40).expect(rt, "a memory");
    world_of(rt, alloc, &map, config(1, log))
}
