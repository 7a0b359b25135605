//! Room for the logs of a machine, counted from its passes' lists before the machine is taken apart.
ghost use Rattle.std.specs.Prelude.{◌≡◌, ◌≤◌, ◌+◌, ℕ, [], true, IfOk, filter, get_or, length, slice_get};
ghost use Rattle.std.specs.Vec.{vec_capacity, vec_len};
ghost use Rattle.hypercalls.specs.Stands.{at_place, kept_of, parts_layout};
ghost use Rattle.world.specs.Merges.{AreLogsOf};
ghost use Rattle.cpu_threads.specs.Rooms.{AllHold, AllRoomy, CanHold, Grew, HasOneMore, HaveAll, HaveRoom, IsZero, of_pass, one_if, total, total_given};

use call_table::Call;
use hypercalls::{Parts, uses_shared, uses_vms};
use part_table::CpuPass;
use part_types::{CpuState, GuestPart};
use std::alloc::{AllocError, Allocator, Global};
use world::Histories;

/// A number of calls for each log.
#[derive(Drop)]
pub(crate) struct Tally {
    vms: usize,
    shared: usize,
    guests: Vec<usize>,
    cpus: Vec<usize>,
}

impl Tally {
    /// No calls, for a world with `cpus` CPUs.
    fn new(global: Global, cpus: usize) -> Result<Tally, AllocError>
        ensures { IfOk result (IsZero cpus) }
    {
        Ok(Tally {
            vms: 0,
            shared: 0,
            guests: vec![in global; 0; 64]?,
            cpus: vec![in global; 0; cpus]?,
        })
    }
}

/// Adds 1 to a count if the condition holds. False if the count would exceed a `usize`.
fn count_if(count: &mut usize, is_so: bool) -> bool
    ensures { result ≡ true → count.new ≡ count.old + one_if is_so }
{
    if !is_so {
        return true;
    }
    match count.checked_add(1) {
        Some(more) => {
            *count = more;
            true
        }
        None => false,
    }
}

/// Adds 1 to the count at a place, if there is such a place. False if the count would exceed a `usize`.
fn count_at(counts: &mut Vec<usize>, place: Option<u64>) -> bool
    ensures { result ≡ true → HasOneMore place counts.old.items counts.new.items }
{
    let Some(place) = place else {
        return true;
    };
    let place = place as usize;
    if place >= counts.len() {
        return true;
    }
    count_if(&mut counts[place], true)
}

/// Counts a call.
fn count_call(tally: &mut Tally, call: &Call) -> bool
    ensures { result ≡ true → Grew (λ p. one_if (p call.now)) tally.old tally.new }
{
    let in_vms = count_if(&mut tally.vms, uses_vms(call.step));
    let in_shared = count_if(&mut tally.shared, uses_shared(call.step, call.slot));
    let in_guests = count_at(&mut tally.guests, call.slot);
    let in_cpus = count_at(&mut tally.cpus, Some(call.cpu));
    in_vms && in_shared && in_guests && in_cpus
}

/// Counts the calls of a list.
fn count_list(tally: &mut Tally, calls: &[Call]) -> bool
    ensures { result ≡ true → Grew (λ p. length (filter p calls.now)) tally.old tally.new }
{
    for i in 0..calls.len() {
        if !count_call(tally, &calls[i]) {
            return false;
        }
    }
    true
}

/// Counts the calls of a pass that is at home.
fn count_place<A: Allocator>(tally: &mut Tally, place: &Option<CpuPass<A>>) -> bool
    ensures { result ≡ true → Grew (λ p. of_pass p place.now) tally.old tally.new }
{
    match place {
        Some(pass) => count_list(tally, pass.calls()),
        None => true,
    }
}

/// Counts the calls of the passes that are at home.
fn count_home<A: Allocator>(tally: &mut Tally, passes: &Vec<Option<CpuPass<A>>>) -> bool
    ensures { result ≡ true → Grew (λ p. total p passes.now.items) tally.old tally.new }
{
    for cpu in 0..passes.len() {
        if !count_place(tally, &passes[cpu]) {
            return false;
        }
    }
    true
}

/// Counts the calls of the passes that are given.
fn count_given<A: Allocator>(tally: &mut Tally, given: &Vec<CpuPass<A>>) -> bool
    ensures { result ≡ true → Grew (λ p. total_given p given.now.items) tally.old tally.new }
{
    for j in 0..given.len() {
        if !count_list(tally, given[j].calls()) {
            return false;
        }
    }
    true
}

/// An empty list for each count, with room for that many calls.
fn roomy(global: Global, counts: &Vec<usize>) -> Result<Vec<Vec<Call>>, AllocError>
    ensures { IfOk result (λ v. AllRoomy counts.now.items v.items) }
{
    let mut rooms = Vec::with_capacity(global, counts.len())?;
    for place in 0..counts.len() {
        let room = Vec::with_capacity(global, counts[place])?;
        rooms.push(room)?;
    }
    Ok(rooms)
}
/// Copies calls into a list that has room for them.
pub(crate) fn fill(room: &mut Vec<Call>, calls: &[Call])
    requires room { (room.old.items ≡ []) × (length calls.now ≤ vec_capacity room.old) }
    ensures { room.new.items ≡ calls.now }
{
    for i in 0..calls.len() {
        room.push(calls[i]).unwrap();
    }
}

/// Room for all logs: each call of the passes' lists is looked at once.
pub(crate) fn log_rooms<A: Allocator>(
    global: Global,
    passes: &Vec<Option<CpuPass<A>>>,
    given: &Vec<CpuPass<A>>,
) -> Result<Histories, AllocError>
    ensures { IfOk result (HaveRoom passes.now.items given.now.items (vec_len passes.now)) }
{
    let mut tally = Tally::new(global, passes.len())?;
    if !count_home(&mut tally, passes) {
        return Err(AllocError);
    }
    if !count_given(&mut tally, given) {
        return Err(AllocError);
    }
    let vms = Vec::with_capacity(global, tally.vms)?;
    let shared = Vec::with_capacity(global, tally.shared)?;
    let guests = roomy(global, &tally.guests)?;
    let cpus = roomy(global, &tally.cpus)?;
    Ok(Histories {
        vms,
        shared,
        guests,
        cpus,
    })
}

/// Copies the guests' logs.
fn fill_guests<A: Allocator>(rooms: &mut Vec<Vec<Call>>, guests: &Vec<GuestPart<A>>)
    requires count { length rooms.old.items ≡ length guests.now.items }
    requires room { AllHold (λ v. at_place [] (λ g. g.log.calls) (slice_get guests.now.items v)) rooms.old.items }
    ensures filled { HaveAll (λ v. at_place [] (λ g. g.log.calls) (slice_get guests.now.items v)) rooms.new.items }
    ensures count { length rooms.new.items ≡ length rooms.old.items }
{
    for v in 0..guests.len() {
        fill(&mut rooms[v], guests[v].log.calls());
    }
}

/// Copies the CPUs' lists.
fn fill_cpus(rooms: &mut Vec<Vec<Call>>, cpus: &Vec<CpuState>)
    requires count { length rooms.old.items ≡ length cpus.now.items }
    requires room { AllHold (λ c. at_place [] (λ k. k.log.calls) (slice_get cpus.now.items c)) rooms.old.items }
    ensures filled { HaveAll (λ c. at_place [] (λ k. k.log.calls) (slice_get cpus.now.items c)) rooms.new.items }
    ensures count { length rooms.new.items ≡ length rooms.old.items }
{
    for c in 0..cpus.len() {
        fill(&mut rooms[c], cpus[c].log.calls());
    }
}

/// The logs of all parts, copied into lists that have room for them.
pub(crate) fn copied<A: Allocator>(mut rooms: Histories, parts: &Parts<A>) -> Histories
    requires room { CanHold (kept_of parts.now) parts.now.layout.config.cpus rooms }
    ensures { AreLogsOf result (parts_layout parts.now) (kept_of parts.now) }
{
    fill(&mut rooms.vms, parts.vms.log.calls());
    fill(&mut rooms.shared, parts.shared.log.calls());
    fill_guests(&mut rooms.guests, &parts.guests);
    fill_cpus(&mut rooms.cpus, &parts.cpus);
    rooms
}
