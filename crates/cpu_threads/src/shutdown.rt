//! Shutting a machine down.
ghost use Rattle.std.specs.Prelude.{◌≡◌, ◌≤◌, [], IfOk, IfErr};
ghost use Rattle.std.specs.Vec.{vec_capacity, vec_len};
ghost use Rattle.part_table.specs.Endings.{ForEach, IsEndFor};
ghost use Rattle.part_table.specs.Passes.{AreHomeFrom};
ghost use Rattle.part_table.specs.Slots.{slots_of};
ghost use Rattle.cpu_threads.specs.Ends.{AllGiven, AreFreshAt, AreOf, HasAll, HasEndOf, LacksOne, OfGiven};
ghost use Rattle.cpu_threads.specs.Rooms.{AreHistories};
ghost use Rattle.cpu_threads.specs.declared.shutdown.ShutdownFault.TheVariants.{Missing, NoMemory};

use crate::machine::Machine;
use crate::passes_back::{all_back, lacks};
use crate::rooms::{copied, log_rooms};
use part_table::whole::together;
use part_table::{CpuPass, PartTable, Slot};
use part_types::{CpuState, GuestPart};
use std::alloc::{AllocError, Allocator, Global};
use thiserror::Error;
use world::{Histories, World};

/// Why a machine isn't shut down. In brackets the number of the fault.
#[derive(Clone, Copy, PartialEq, Debug, Error)]
pub enum ShutdownFault {
    /// (1) A pass that was handed out isn't given.
    #[error("a pass that was handed out is missing")]
    Missing,
    /// (2) A growth was refused.
    #[error("out of memory")]
    NoMemory,
}

/// Room for the lists of a world.
#[derive(Drop)]
struct Rooms<A: Allocator> {
    found: Vec<Slot<A>>,
    cpus: Vec<CpuState>,
    guests: Vec<GuestPart<A>>,
}

/// Takes the room of a world with `count` CPUs.
fn rooms_for<A: Allocator>(global: Global, count: usize) -> Result<Rooms<A>, AllocError>
    ensures found { IfOk result (λ r. (r.found.items ≡ []) × (66 ≤ vec_capacity r.found)) }
    ensures cpus { IfOk result (λ r. (r.cpus.items ≡ []) × (count ≤ vec_capacity r.cpus)) }
    ensures guests { IfOk result (λ r. (r.guests.items ≡ []) × (64 ≤ vec_capacity r.guests)) }
{
    let found = Vec::with_capacity(global, 66)?;
    let cpus = Vec::with_capacity(global, count)?;
    let guests = Vec::with_capacity(global, 64)?;
    Ok(Rooms {
        found,
        cpus,
        guests,
    })
}

/// The world of a table whose passes are all back.
fn ended<A: Allocator>(
    table: PartTable<A>,
    passes: Vec<Option<CpuPass<A>>>,
    rooms: Rooms<A>,
) -> World<A>
    requires count { vec_len passes ≡ table.layout.config.cpus }
    requires home { AreHomeFrom table.table (vec_len passes) 0 passes.items }
    requires found { (rooms.found.items ≡ []) × (66 ≤ vec_capacity rooms.found) }
    requires cpus { (rooms.cpus.items ≡ []) × (vec_len passes ≤ vec_capacity rooms.cpus) }
    requires guests { (rooms.guests.items ≡ []) × (64 ≤ vec_capacity rooms.guests) }
    ensures layout { result.parts.layout ≡ table.layout }
    ensures end { IsEndFor table (slots_of result.parts) result.parts.cpus.items (ForEach passes.items) }
{
    let Rooms {
        found,
        cpus,
        guests,
    } = rooms;
    let (alloc, layout, found, cpus) = table.close(passes, found, cpus);
    let parts = together(layout, found, cpus, guests);
    World::join(alloc, parts)
}

impl<A: Allocator> Machine<A> {
    /// The world after the one legal history of all calls, once each pass that was handed out is given. It goes on from
    /// the history of the world that the machine was made of. Each CPU has the state in which its pass ends, with the
    /// pass's calls, and each part's log begins with what each pass has seen there (`laws::one_history`). A log that a
    /// try found full was full before its pass's next call (`laws::full_logs`). With it come copies of all logs, for which room is taken before
    /// the machine ends. On a refusal the machine and the passes are returned.
    // Room for the copies is taken first: docs/DECISIONS.md, 33.
    pub fn shutdown(
        self,
        global: Global,
        given: Vec<CpuPass<A>>,
    ) -> Result<(World<A>, Histories), (Machine<A>, Vec<CpuPass<A>>, ShutdownFault)>
        requires pass { AreOf self.table given.items }
        ensures layout { IfOk result (λ r. r.0.parts.layout ≡ self.table.layout) }
        ensures end { IfOk result
            (λ r. IsEndFor self.table (slots_of r.0.parts) r.0.parts.cpus.items
            (OfGiven given.items)) }
        ensures fresh { IfOk result (λ r. AreFreshAt self.table self.passes r.0.parts.cpus.items) }
        ensures logs { IfOk result (λ r. AreHistories r.0.parts r.1) }
        ensures all { IfOk result (λ _. HasAll self.passes given.items) }
        ensures missing { IfErr result (λ e. e.2 ≡ Missing → LacksOne self.passes given.items) }
        ensures no_memory { IfErr result (λ e. e.2 ≡ NoMemory → HasAll self.passes given.items) }
        ensures same { IfErr result (λ e. (e.0 ≡ self) × (e.1.items ≡ given.items)) }
    {
        if lacks(&self.passes, &given) {
            return Err((self, given, ShutdownFault::Missing));
        }
        let Ok(rooms) = rooms_for(global, self.passes.len()) else {
            return Err((self, given, ShutdownFault::NoMemory));
        };
        let Ok(logs) = log_rooms(global, &self.passes, &given) else {
            return Err((self, given, ShutdownFault::NoMemory));
        };
        let Machine { table, passes } = self;
        let passes = all_back(&table, passes, given);
        let world = ended(table, passes, rooms);
        let histories = copied(logs, world.parts());
        Ok((world, histories))
    }

    /// Ends a machine without its world. It requires a pass of each CPU: there is one legal history of all calls, as at
    /// a shutdown. It takes no memory.
    pub fn drop_with(self, given: Vec<CpuPass<A>>)
        requires pass { AreOf self.table given.items }
        requires all { AllGiven self.table.layout given.items }
        ensures { HasEndOf A self.table self.passes given.items }
    {
        let Machine { table, passes } = self;
        let passes = all_back(&table, passes, given);
        table.drop_with(passes);
    }
}
