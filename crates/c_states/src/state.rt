//! States.
ghost use Rattle.std.specs.Prelude.{◌≡◌, ◌⊎◌, ℕ, ◌<◌, ◌^◌, IfErr, IfOk, MatchOption, None, Ok, OnOk, length, map};
ghost use Rattle.std.specs.List.{range_with_len};
ghost use Rattle.page_state.specs.LayoutView.{layout_of};
ghost use Rattle.page_state.specs.Rows.{advance_row};
ghost use Rattle.run_list.specs.Runs.{run_map};
ghost use Rattle.ghost_spec.specs.declared.lists.GhostLists.{GhostLists};
ghost use Rattle.ghost_spec.specs.Filled.{state_filled, AreLowRows, AreRowsApart, HasTablesApart, IsFirstFault, IsFirstRowFault, MakesState};
ghost use Rattle.ghost_spec.specs.States.{ghost_state, slot_in};
ghost use Rattle.c_states.specs.Filled.{AreFilledGuests, IsFilled, IsFilledShared, IsFilledTree, IsRoomy, guest_lists_from_c, lists_in, slot_filled};
ghost use Rattle.c_states.specs.Faults.{
  first_unknown_later,
  first_unknown_of,
  AreOnce,
  AreRead,
  AreTaken,
  AreTakenRows,
  IsCulprit,
  IsFirstOfLists,
  IsListsFault,
  IsPlainFault,
  IsTwice,
};
ghost use Rattle.c_states.specs.Lists.{rows_from_c, slot_listed};
ghost use Rattle.c_states.specs.States.{state_from_c};
ghost use Rattle.c_states.specs.Views.{lists_from_c};

use crate::clash::first_clash;
use crate::known::{first_unknown, first_unknown_cpu};
use crate::lists::{
    cpus_of, frames_of, kind_of, listed_guest, listed_slot, phase_of, row_runs_of, runs_of,
    slot_of, tables_of,
};
use crate::members::{
    PlainCpu, PlainFrame, PlainGuest, PlainLoad, PlainRow, PlainRun, PlainSlot, PlainTable,
};
use ghost_spec::filled::{GhostFault, rows_of};
use ghost_spec::lists::{GhostLists, GhostRooms};
use ghost_spec::parts::{GhostGuest, GhostSlot};
use ghost_spec::shared::Shared;
use ghost_spec::start::equal_rooms;
use ghost_spec::state::Ghost;
use ghost_trees::tree::Tree;
use page_state::{Layout, Row};
use run_list::RunList;
use std::alloc::{AllocError, Global};

/// A state, as lists whose members have any order.
#[repr(C)]
#[derive(Clone, Copy)]
pub struct PlainState<'a> {
    /// The runs of all maps. No two of one tree share a page.
    pub runs: &'a [PlainRun],
    /// The tables of all trees.
    pub tables: &'a [PlainTable],
    /// The free frames of all pools.
    pub frames: &'a [PlainFrame],
    /// Slots of the table of VMs, each once. The others are as at boot: vacant, of generation 1, plain, and without vCPUs.
    pub slots: &'a [PlainSlot],
    /// The vCPUs that are loaded.
    pub loads: &'a [PlainLoad],
    /// Guests, each once. The others are empty.
    pub guests: &'a [PlainGuest],
    /// CPUs, each once. The others have nothing loaded, no hand and no ticket.
    pub cpus: &'a [PlainCpu],
    /// The owner rows. A frame that is in no run is the host's, lent to nobody, and in no use.
    pub rows: &'a [PlainRow],
}

/// The trees of the host and of the hypervisor, whose numbers the guests' come after.
pub(crate) const HOST: u64 = 0;

pub(crate) const HYP: u64 = 1;

pub(crate) const GUESTS: u64 = 2;

/// The tree of a number.
fn tree_of(alloc: Global, state: &PlainState<'_>, number: u64) -> Result<Tree, AllocError>
    ensures { IfOk result (IsFilledTree (lists_from_c state.now) number) }
{
    Ok(Tree {
        runs: runs_of(alloc, state.runs, number)?,
        tables: tables_of(alloc, state.tables, number)?,
    })
}

/// The guest of a slot.
fn guest_of(
    alloc: Global,
    state: &PlainState<'_>,
    slot: u64,
    guest: PlainGuest,
) -> Result<GhostGuest, AllocError>
    requires { slot < 2 ^ 63 }
    ensures { IfOk result (λ g. lists_in g ≡ guest_lists_from_c (lists_from_c state.now) slot guest) }
{
    Ok(GhostGuest {
        phase: phase_of(guest.phase),
        generation: guest.generation,
        kind: kind_of(guest.kind),
        tree: tree_of(alloc, state, GUESTS + slot)?,
        free: frames_of(alloc, state.frames, GUESTS + slot)?,
    })
}

/// The slots of the table of VMs, and as many guests.
const SLOTS: u64 = 64;

/// The slots of the table of VMs.
fn slots_of(
    alloc: Global,
    loads: &[PlainLoad],
    slots: &[PlainSlot],
) -> Result<Vec<GhostSlot>, AllocError>
    ensures { IfOk result
        (λ v. map slot_in v.items
        ≡ map (λ n. slot_filled loads.now n (slot_listed slots.now n))
        (range_with_len 0 64)) }
{
    let mut made = Vec::new(alloc);
    for number in 0..SLOTS {
        let slot = slot_of(alloc, loads, number, listed_slot(slots, number))?;
        made.push(slot)?;
    }
    Ok(made)
}

/// The guests.
fn guests_of(alloc: Global, state: &PlainState<'_>) -> Result<Vec<GhostGuest>, AllocError>
    ensures { IfOk result (λ v. AreFilledGuests (lists_from_c state.now) v.items) }
{
    let mut made = Vec::new(alloc);
    for slot in 0..SLOTS {
        let guest = guest_of(alloc, state, slot, listed_guest(state.guests, slot))?;
        made.push(guest)?;
    }
    Ok(made)
}

/// The Shared part, with these owner rows.
fn shared_of(
    alloc: Global,
    state: &PlainState<'_>,
    rows: RunList<Row>,
) -> Result<Shared, AllocError>
    requires { run_map advance_row rows.runs ≡ run_map advance_row (rows_from_c state.now.rows.now) }
    ensures { IfOk result (IsFilledShared (lists_from_c state.now)) }
{
    let free = frames_of(alloc, state.frames, SHARED_POOL)?;
    let host = tree_of(alloc, state, HOST)?;
    let hyp = tree_of(alloc, state, HYP)?;
    Ok(Shared {
        host,
        hyp,
        free,
        rows,
    })
}

/// The number of the shared pool.
pub(crate) const SHARED_POOL: u64 = 1;

/// Logs with room for one call each.
fn rooms_of(alloc: Global, cpus: u64) -> Result<GhostRooms, AllocError>
    ensures room { IfOk result IsRoomy }
    ensures guests { IfOk result (λ r. length r.guests.items ≡ 64) }
    ensures cpus { IfOk result (λ r. length r.cpus.items ≡ cpus) }
{
    Ok(GhostRooms {
        vms: 1,
        shared: 1,
        guests: equal_rooms(alloc, 64, 1)?,
        cpus: equal_rooms(alloc, cpus, 1)?,
    })
}

/// All lists, with these owner rows.
fn filled(
    alloc: Global,
    layout: Layout,
    state: &PlainState<'_>,
    rows: RunList<Row>,
) -> Result<GhostLists, AllocError>
    requires rows { run_map advance_row rows.runs ≡ run_map advance_row (rows_from_c state.now.rows.now) }
    requires log { layout.config.log ≡ 1 }
    ensures filled { IfOk result (IsFilled layout.config.cpus (lists_from_c state.now)) }
    ensures layout { IfOk result (λ l. l.layout ≡ layout) }
    ensures guest_rooms { IfOk result (λ l. length l.rooms.guests.items ≡ 64) }
    ensures cpu_rooms { IfOk result (λ l. length l.rooms.cpus.items ≡ layout.config.cpus) }
{
    let cpus = cpus_of(alloc, state.cpus, layout.config.cpus);
    let rooms = rooms_of(alloc, layout.config.cpus);
    let vms = slots_of(alloc, state.loads, state.slots);
    let guests = guests_of(alloc, state);
    let shared = shared_of(alloc, state, rows);
    let ((rooms, cpus), (vms, (guests, shared))) = both(
        both(rooms, cpus),
        both(vms, both(guests, shared)),
    )?;
    Ok(GhostLists {
        layout,
        vms,
        shared,
        guests,
        cpus,
        rooms,
    })
}

/// Both values, if neither was refused.
pub(crate) fn both<A: Drop, B: Drop>(
    first: Result<A, AllocError>,
    second: Result<B, AllocError>,
) -> Result<(A, B), AllocError>
    ensures first { IfOk result (λ r. first ≡ Ok r.0) }
    ensures second { IfOk result (λ r. second ≡ Ok r.1) }
{
    Ok((first?, second?))
}

/// The lists of a state.
#[derive(Clone, Copy, PartialEq)]
pub enum PlainList {
    Runs,
    Tables,
    Frames,
    Slots,
    Loads,
    Guests,
    Cpus,
    Rows,
}

/// Why lists make no state. The first that is true is answered, in the order of the variants.
#[derive(Clone, Copy, PartialEq)]
pub enum PlainFault {
    /// The member of that list at this index has a number with no meaning: of a tree, a pool, a slot, a CPU or a vCPU
    /// that can't be, or of an unknown variant.
    Unknown(PlainList, usize),
    /// Two runs of owner rows share a frame (Overlap), or a frame or a lent page is too large (TooLarge).
    Rows(GhostFault),
    /// Two slots, guests or CPUs have one number: the list, and the index of the later one.
    Twice(PlainList, usize),
    /// What the lists of a state may be; not WrongCount nor NoMemory. Of two runs, tables or frames that can't be there both, the list and the
    /// index of the later one.
    Lists(GhostFault, Option<(PlainList, usize)>),
    /// Memory was refused.
    NoMemory,
}

/// The first member with an unknown number, in the order of the lists.
fn unknown(state: &PlainState<'_>, cpus: u64) -> Option<(PlainList, usize)>
    ensures { result ≡ first_unknown_of cpus (lists_from_c state.now) }
{
    if let Some(at) = first_unknown(state.runs) {
        return Some((PlainList::Runs, at));
    }
    if let Some(at) = first_unknown(state.tables) {
        return Some((PlainList::Tables, at));
    }
    if let Some(at) = first_unknown(state.frames) {
        return Some((PlainList::Frames, at));
    }
    if let Some(at) = first_unknown(state.slots) {
        return Some((PlainList::Slots, at));
    }
    unknown_later(state, cpus)
}

/// From the loads on.
fn unknown_later(state: &PlainState<'_>, cpus: u64) -> Option<(PlainList, usize)>
    ensures { result ≡ first_unknown_later cpus (lists_from_c state.now) }
{
    if let Some(at) = first_unknown(state.loads) {
        return Some((PlainList::Loads, at));
    }
    if let Some(at) = first_unknown(state.guests) {
        return Some((PlainList::Guests, at));
    }
    if let Some(at) = first_unknown_cpu(state.cpus, cpus) {
        return Some((PlainList::Cpus, at));
    }
    if let Some(at) = first_unknown(state.rows) {
        return Some((PlainList::Rows, at));
    }
    None
}

/// The first of two slots, guests or CPUs that have one number, in the order of the lists: the later one.
fn twice(state: &PlainState<'_>) -> Option<(PlainList, usize)>
    ensures { MatchOption result (AreOnce (lists_from_c state.now))
        (λ t. IsTwice (lists_from_c state.now) t.0 t.1) }
{
    if let Some(at) = first_clash(state.slots) {
        return Some((PlainList::Slots, at));
    }
    if let Some(at) = first_clash(state.guests) {
        return Some((PlainList::Guests, at));
    }
    if let Some(at) = first_clash(state.cpus) {
        return Some((PlainList::Cpus, at));
    }
    None
}

/// The owner rows.
fn rows_from(alloc: Global, rows: &[PlainRow]) -> Result<RunList<Row>, GhostFault>
    ensures rows { IfOk result (λ r. run_map advance_row r.runs ≡ run_map advance_row (rows_from_c rows.now)) }
    ensures fault { IfErr result (λ f. f ≡ GhostFault.NoMemory ⊎ IsFirstRowFault f (rows_from_c rows.now)) }
    ensures made { OnOk result (AreLowRows (rows_from_c rows.now) × AreRowsApart (rows_from_c rows.now)) }
{
    match row_runs_of(alloc, rows) {
        Ok(runs) => rows_of(alloc, runs.as_slice()),
        Err(_) => Err(GhostFault::NoMemory),
    }
}

/// The state of lists that are filled in.
fn tested(alloc: Global, lists: &GhostLists) -> Result<Ghost, GhostFault>
    ensures state { IfOk result (λ g. ghost_state g ≡ state_filled lists.now) }
    ensures layout { IfOk result (λ g. layout_of g.layout ≡ layout_of lists.now.layout) }
    ensures tables { IfOk result HasTablesApart }
    ensures made { OnOk result (MakesState lists.now) }
    ensures fault { IfErr result (λ f. f ≡ GhostFault.NoMemory ⊎ IsFirstFault f lists.now) }
{
    Ghost::of(alloc, lists)
}

/// The member that makes lists have a fault, if the fault comes from one of two that can't both be there.
fn culprit(state: &PlainState<'_>, fault: GhostFault) -> Option<(PlainList, usize)>
    ensures { (cpus : ℕ)
        → IsFirstOfLists cpus (lists_from_c state.now) fault
        → IsCulprit (lists_from_c state.now) fault result }
{
    match fault {
        GhostFault::Overlap => {
            let at = first_clash(state.runs)?;
            Some((PlainList::Runs, at))
        }
        GhostFault::TableTwice => {
            let at = first_clash(state.tables)?;
            Some((PlainList::Tables, at))
        }
        GhostFault::FrameTwice => {
            let at = first_clash(state.frames)?;
            Some((PlainList::Frames, at))
        }
        GhostFault::WrongCount | GhostFault::TooLarge | GhostFault::NoMemory => None,
    }
}

/// A fault of lists, with the member that makes them have it.
fn with_culprit(state: &PlainState<'_>, fault: GhostFault) -> PlainFault
    ensures memory { fault ≡ GhostFault.NoMemory → result ≡ PlainFault.NoMemory }
    ensures fault { (cpus : ℕ)
        → IsFirstOfLists cpus (lists_from_c state.now) fault
        → IsListsFault cpus (lists_from_c state.now) result }
{
    match fault {
        GhostFault::NoMemory => PlainFault::NoMemory,
        other => PlainFault::Lists(other, culprit(state, other)),
    }
}

/// The state that the lists say, with these owner rows.
fn with_rows(
    alloc: Global,
    layout: Layout,
    state: &PlainState<'_>,
    rows: RunList<Row>,
) -> Result<Ghost, PlainFault>
    requires rows { run_map advance_row rows.runs ≡ run_map advance_row (rows_from_c state.now.rows.now) }
    requires log { layout.config.log ≡ 1 }
    requires read { AreRead layout.config.cpus (lists_from_c state.now) }
    ensures state { IfOk result (λ g. ghost_state g ≡ state_from_c (lists_from_c state.now)) }
    ensures layout { IfOk result (λ g. layout_of g.layout ≡ layout_of layout) }
    ensures tables { IfOk result HasTablesApart }
    ensures taken { OnOk result (AreTaken layout.config.cpus (lists_from_c state.now)) }
    ensures fault { IfErr result (IsPlainFault layout.config.cpus (lists_from_c state.now)) }
{
    let Ok(lists) = filled(alloc, layout, state, rows) else {
        return Err(PlainFault::NoMemory);
    };
    let answer = tested(alloc, &lists);
    drop(lists);
    match answer {
        Ok(made) => Ok(made),
        Err(fault) => Err(with_culprit(state, fault)),
    }
}

/// The state that the lists say, on this layout, whose logs have room for one call each.
pub fn state_of(alloc: Global, layout: Layout, state: &PlainState<'_>) -> Result<Ghost, PlainFault>
    requires { layout.config.log ≡ 1 }
    ensures state { IfOk result (λ g. ghost_state g ≡ state_from_c (lists_from_c state.now)) }
    ensures layout { IfOk result (λ g. layout_of g.layout ≡ layout_of layout) }
    ensures tables { IfOk result HasTablesApart }
    ensures taken { OnOk result (AreTaken layout.config.cpus (lists_from_c state.now)) }
    ensures fault { IfErr result (IsPlainFault layout.config.cpus (lists_from_c state.now)) }
{
    if let Some((list, at)) = unknown(state, layout.config.cpus) {
        return Err(PlainFault::Unknown(list, at));
    }
    match rows_from(alloc, state.rows) {
        Ok(rows) => {
            if let Some((list, at)) = twice(state) {
                drop(rows);
                return Err(PlainFault::Twice(list, at));
            }
            with_rows(alloc, layout, state, rows)
        }
        Err(GhostFault::NoMemory) => Err(PlainFault::NoMemory),
        Err(fault) => Err(PlainFault::Rows(fault)),
    }
}
