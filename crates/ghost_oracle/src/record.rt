//! A record of given parts alone: what a walk of their trees finds, and the state that is in no tree.
ghost use Rattle.std.specs.Prelude.{◌≡◌, ℕ, ◌*◌, ◌<◌, IfOk, IfSome, OnOk, get_or, length, map};
ghost use Rattle.std.specs.Option.{option_copied, option_map};
ghost use Rattle.page_state.specs.LayoutView.{layout_of};
ghost use Rattle.reference_model.specs.model.State.{blank, no_cpu, put_at};
ghost use Rattle.part_types.specs.View.{cpu_of, guest_held, shared_of};
ghost use Rattle.hypercalls.specs.Stands.{at_place};
ghost use Rattle.ghost_spec.specs.Kept.{IsKeptGuest, IsKeptShared};
ghost use Rattle.ghost_spec.specs.States.{ghost_state, guest_in, AreKeptCpus, AreKeptGuests, IsKept};
ghost use Rattle.ghost_spec.specs.Used.{guests_in, rooms_of};
ghost use Rattle.ghost_spec.specs.Views.{cpu_in, shared_in_lists};
ghost use Rattle.table_tree.specs.Reading.{count_of};
ghost use Rattle.ghost_oracle.specs.Counted.{HasRead, shared_tables, slot_tables, tables_given};
ghost use Rattle.ghost_oracle.specs.Low.{IsLowCpu, IsLowGuest};
ghost use Rattle.ghost_oracle.specs.Recorded.{AreSlotsGiven, given_by, put_given, recorded};
ghost use Rattle.ghost_oracle.specs.inner.Eights.{HasLooked};

use crate::kept::shared_from;
use crate::parts::{SlotsAndCpus, cpu_from, slots_from};
use crate::trees::{Source, guest_from};
use ghost_spec::cpu::GhostCpu;
use ghost_spec::lists::{GhostLists, GhostRooms, copied_layout};
use ghost_spec::parts::{GhostGuest, GhostSlot, empty_guests, empty_slots};
use ghost_spec::rows::copied_rows;
use ghost_spec::shared::Shared;
use ghost_spec::start::{equal_rooms, idle_cpus};
use page_state::{Config, Layout};
use part_types::{CpuState, GuestPart, SharedPart, VmPart};
use std::alloc::{AllocError, Allocator, Global};
use table_tree::Reads;

/// The slots of the VM part, or Empty ones.
fn slots_given(alloc: Global, vms: Option<&VmPart>) -> Result<Vec<GhostSlot>, AllocError>
    ensures slots { IfOk result (λ v. AreSlotsGiven vms.entry v.items) }
    ensures count { IfOk result (λ v. length v.items ≡ 64) }
{
    match vms {
        Some(part) => slots_from(alloc, &part.table),
        None => empty_slots(alloc, 64),
    }
}

/// The Shared part: the maps as a walk finds them, and the pool and the rows as they are.
fn shared_walked<A: Allocator>(
    alloc: Global,
    part: &SharedPart<A>,
    reads: &mut Reads,
) -> Result<Shared, AllocError>
    ensures shared { IfOk result (λ s. shared_in_lists s ≡ shared_of part.now) }
    ensures kept { IfOk result IsKeptShared }
    ensures reads { OnOk result (HasRead (count_of reads.old) (shared_tables part.now) (count_of reads.new)) }
{
    let rows = copied_rows(alloc, part.owners.runs())?;
    shared_from(alloc, part, rows, reads)
}

/// The Shared part, or a blank one.
fn shared_given<A: Allocator>(
    alloc: Global,
    shared: Option<&SharedPart<A>>,
    reads: &mut Reads,
) -> Result<Shared, AllocError>
    ensures shared { IfOk result
        (λ s. shared_in_lists s ≡ at_place blank.shared shared_of (option_copied shared.entry)) }
    ensures kept { IfOk result IsKeptShared }
    ensures reads { OnOk result
        (HasLooked (count_of reads.old)
        (512 * at_place 0 shared_tables (option_copied shared.entry)) (count_of reads.new)) }
{
    match shared {
        Some(part) => shared_walked(alloc, part, reads),
        None => Ok(Shared::none(alloc)),
    }
}

/// The guest of a slot, and Empty ones at the others.
fn guests_with(alloc: Global, slot: u64, guest: GhostGuest) -> Result<Vec<GhostGuest>, AllocError>
    requires slot { slot < 64 }
    ensures guests { IfOk result (λ v. guests_in v.items ≡ put_at blank.guest slot (guest_in guest)) }
    ensures count { IfOk result (λ v. length v.items ≡ 64) }
    ensures kept { IsKeptGuest guest → IfOk result (λ v. AreKeptGuests v.items) }
{
    let mut guests = empty_guests(alloc, 64)?;
    guests[slot as usize] = guest;
    Ok(guests)
}

/// The guest of the Guest part at its slot, its map as a walk finds it, and Empty ones at the others.
fn guests_given<A: Allocator>(
    alloc: Global,
    guest: Option<(u64, &GuestPart<A>)>,
    reads: &mut Reads,
) -> Result<Vec<GhostGuest>, AllocError>
    requires slot { IfSome guest (λ g. g.0 < 64) }
    ensures guests { IfOk result
        (λ v. guests_in v.items
        ≡ put_given blank.guest guest_held (option_map (λ g. (g.0, g.1.now)) guest.entry)) }
    ensures count { IfOk result (λ v. length v.items ≡ 64) }
    ensures kept { IfSome guest.entry (λ g. IsLowGuest (guest_held g.1.now))
        → IfOk result (λ v. AreKeptGuests v.items) }
    ensures reads { OnOk result
        (HasLooked (count_of reads.old)
        (512 * slot_tables (option_map (λ g. (g.0, g.1.now)) guest.entry))
        (count_of reads.new)) }
{
    match guest {
        Some((slot, part)) => {
            let found = guest_from(alloc, &part.guest, Source::Words, reads)?;
            guests_with(alloc, slot, found)
        }
        None => empty_guests(alloc, 64),
    }
}

/// A CPU with its own state, and idle ones beside it.
fn cpus_with(alloc: Global, count: u64, state: &CpuState) -> Result<Vec<GhostCpu>, AllocError>
    requires { state.now.id < count }
    ensures cpus { IfOk result
        (λ v. (c : ℕ)
        → get_or (map cpu_in v.items) c no_cpu
        ≡ put_at blank.cpu state.now.id (cpu_of state.now) c) }
    ensures count { IfOk result (λ v. length v.items ≡ count) }
    ensures kept { IsLowCpu (cpu_of state.now) → IfOk result (λ v. AreKeptCpus v.items) }
{
    let mut cpus = idle_cpus(alloc, count)?;
    cpus[state.id as usize] = cpu_from(state);
    Ok(cpus)
}

/// The room of a log at its place, and at the others those of empty logs, which can store `most` calls.
fn rooms_with(
    alloc: Global,
    count: u64,
    log: u64,
    place: u64,
    room: u64,
) -> Result<Vec<u64>, AllocError>
    requires { place < count }
    ensures rooms { IfOk result (λ v. rooms_of log v.items ≡ put_at (λ _. log) place room) }
    ensures count { IfOk result (λ v. length v.items ≡ count) }
{
    let mut rooms = equal_rooms(alloc, count, log)?;
    rooms[place as usize] = room;
    Ok(rooms)
}

/// The rooms of the guests' logs.
fn guest_rooms_given<A: Allocator>(
    alloc: Global,
    log: u64,
    guest: Option<(u64, &GuestPart<A>)>,
) -> Result<Vec<u64>, AllocError>
    requires { IfSome guest (λ g. g.0 < 64) }
    ensures rooms { IfOk result
        (λ v. rooms_of log v.items
        ≡ put_given (λ _. log) (λ g. g.log.room)
        (option_map (λ g. (g.0, g.1.now)) guest.entry)) }
    ensures count { IfOk result (λ v. length v.items ≡ 64) }
{
    match guest {
        Some((slot, part)) => rooms_with(alloc, 64, log, slot, part.log.room()),
        None => equal_rooms(alloc, 64, log),
    }
}

/// The room of the VM part's log, or of an empty one.
fn vms_room(log: u64, vms: Option<&VmPart>) -> u64
    ensures { result ≡ at_place log (λ v. v.log.room) (option_copied vms.entry) }
{
    match vms {
        Some(part) => part.log.room(),
        None => log,
    }
}

/// The room of the Shared part's log, or of an empty one.
fn shared_room<A: Allocator>(log: u64, shared: Option<&SharedPart<A>>) -> u64
    ensures { result ≡ at_place log (λ s. s.log.room) (option_copied shared.entry) }
{
    match shared {
        Some(part) => part.log.room(),
        None => log,
    }
}

/// The slots of the VM part and the CPU's own state, with blank ones beside them, and these rooms.
fn slots_and_cpus_given(
    alloc: Global,
    layout: &Layout,
    vms: Option<&VmPart>,
    state: &CpuState,
    rooms: GhostRooms,
) -> Result<SlotsAndCpus, AllocError>
    requires { state.now.id < layout.now.config.cpus }
    ensures layout { IfOk result (λ b. layout_of b.layout ≡ layout_of layout.now) }
    ensures slots { IfOk result (λ b. AreSlotsGiven vms.entry b.vms.items) }
    ensures slots_count { IfOk result (λ b. length b.vms.items ≡ 64) }
    ensures cpus { IfOk result
        (λ b. (c : ℕ)
        → get_or (map cpu_in b.cpus.items) c no_cpu
        ≡ put_at blank.cpu state.now.id (cpu_of state.now) c) }
    ensures cpus_count { IfOk result (λ b. length b.cpus.items ≡ layout.now.config.cpus) }
    ensures kept { IsLowCpu (cpu_of state.now) → IfOk result (λ b. AreKeptCpus b.cpus.items) }
    ensures rooms { IfOk result (λ b. b.rooms ≡ rooms) }
{
    Ok(SlotsAndCpus {
        layout: copied_layout(layout)?,
        vms: slots_given(alloc, vms)?,
        cpus: cpus_with(alloc, layout.config.cpus, state)?,
        rooms,
    })
}

/// All that the given parts and a CPU hold, and nothing else: the map of each of their trees by a walk of all its
/// words, and the tables, pools, rows, phases, slots and rooms as they are. Every other part, slot and CPU is empty,
/// and so is its log. If no calls lead to the parts, `Ghost::of` tests whether these lists make a state. It adds the
/// number of words that it reads to `reads`.
pub fn record<A: Allocator>(
    alloc: Global,
    layout: &Layout,
    vms: Option<&VmPart>,
    shared: Option<&SharedPart<A>>,
    guest: Option<(u64, &GuestPart<A>)>,
    state: &CpuState,
    reads: &mut Reads,
) -> Result<GhostLists, AllocError>
    requires cpu { state.now.id < layout.now.config.cpus }
    requires slot { IfSome guest (λ g. g.0 < 64) }
    ensures state { IfOk result
        (λ g. ghost_state g
        ≡ recorded (given_by vms.entry shared.entry guest.entry state.now)
        (layout_of layout.now)) }
    ensures layout { IfOk result (λ g. layout_of g.layout ≡ layout_of layout.now) }
    ensures kept { IfSome guest.entry (λ g. IsLowGuest (guest_held g.1.now))
        → IsLowCpu (cpu_of state.now)
        → IfOk result IsKept }
    ensures reads { OnOk result
        (HasRead (count_of reads.old)
        (tables_given (given_by vms.entry shared.entry guest.entry state.now))
        (count_of reads.new)) }
{
    // For its contract alone: a count is at most the greatest u64.
    let _count = reads.count();
    let Config { cpus, log, .. } = layout.config;
    let rooms = GhostRooms {
        vms: vms_room(log, vms),
        shared: shared_room(log, shared),
        guests: guest_rooms_given(alloc, log, guest)?,
        cpus: rooms_with(alloc, cpus, log, state.id, state.log.room())?,
    };
    let beside = slots_and_cpus_given(alloc, layout, vms, state, rooms)?;
    let Ok(guests) = guests_given(alloc, guest, reads) else {
        drop(beside);
        return Err(AllocError);
    };
    let Ok(shared) = shared_given(alloc, shared, reads) else {
        drop(beside);
        drop(guests);
        return Err(AllocError);
    };
    let SlotsAndCpus {
        layout,
        vms,
        cpus,
        rooms,
    } = beside;
    Ok(GhostLists {
        layout,
        vms,
        cpus,
        guests,
        shared,
        rooms,
    })
}
