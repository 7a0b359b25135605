//! The end: the passes that were handed out go back to their places.
ghost use Rattle.std.specs.Prelude.{◌≡◌, ◌+◌, ◌<◌, ◌≤◌, Bool, true, false, length};
ghost use Rattle.std.specs.Vec.{vec_len};
ghost use Rattle.part_table.specs.Endings.{ForEach};
ghost use Rattle.part_table.specs.Passes.{AreHomeFrom};
ghost use Rattle.cpu_threads.specs.Ends.{AreOf, HasAll, IsBack, IsGiven, IsNotGiven, LacksOne, OfGiven};
ghost use Rattle.call_table.specs.declared.reply.Call.{Call};
ghost use Rattle.cpu_threads.specs.Machines.{AreTheirs};
ghost use Rattle.cpu_threads.specs.Rooms.{total, total_given};

use part_table::{CpuPass, PartTable};
use std::alloc::Allocator;

/// Whether a pass of the CPU is given.
fn has_pass<A: Allocator>(given: &Vec<CpuPass<A>>, cpu: u64) -> bool
    ensures there { result ≡ true → IsGiven given.now.items cpu }
    ensures none { result ≡ false → IsNotGiven given.now.items cpu }
{
    for j in 0..given.len() {
        if given[j].cpu() == cpu {
            return true;
        }
    }
    false
}

/// Whether a pass that was handed out isn't given.
pub(crate) fn lacks<A: Allocator>(passes: &Vec<Option<CpuPass<A>>>, given: &Vec<CpuPass<A>>) -> bool
    ensures missing { result ≡ true → LacksOne passes.now.items given.now.items }
    ensures all { result ≡ false → HasAll passes.now.items given.now.items }
{
    for cpu in 0..passes.len() {
        if passes[cpu].is_none() && !has_pass(given, cpu as u64) {
            return true;
        }
    }
    false
}

/// Each pass goes back to its place, which is free: two passes are of different CPUs.
pub(crate) fn all_back<A: Allocator>(
    table: &PartTable<A>,
    mut passes: Vec<Option<CpuPass<A>>>,
    mut given: Vec<CpuPass<A>>,
) -> Vec<Option<CpuPass<A>>>
    requires count { length passes.items ≡ table.now.layout.config.cpus }
    requires theirs { AreTheirs table.now passes.items }
    requires given { AreOf table.now given.items }
    requires all { HasAll passes.items given.items }
    ensures count { (length result.items ≡ length passes.items) × (vec_len result ≡ vec_len passes) }
    ensures home { AreHomeFrom table.now.table (vec_len passes) 0 result.items }
    ensures few { (f : Call → Bool) → total f result.items ≤ total f passes.items + total_given f given.items }
    ensures back { OfGiven given.items (IsBack result.items) }
    ensures stays { ForEach passes.items (IsBack result.items) }
{
    while let Some(pass) = given.pop() {
        let cpu = pass.cpu() as usize;
        if passes[cpu].is_some() {
            let other = passes[cpu].take().unwrap();
            table.apart(pass, other);
            unreachable!()
        }
        passes[cpu] = Some(pass);
    }
    passes
}
