//! The lists of a state: what the members of a tree, a pool, a slot or a CPU say.
ghost use Rattle.std.specs.Prelude.{◌≡◌, ◌==◌, ℕ, IfOk, find, map, get_or, nat_lt, None, if◌then◌else◌};
ghost use Rattle.std.specs.List.{range_with_len};
ghost use Rattle.ghost_spec.specs.States.{phase_in, slot_in, stand_in};
ghost use Rattle.ghost_spec.specs.Views.{cpu_in};
ghost use Rattle.c_states.specs.Filled.{slot_filled};
ghost use Rattle.c_states.specs.Lists.{
  cpu_listed,
  cpu_from_c,
  frame_from_c,
  frames_from_c,
  guest_listed,
  hand_from_c,
  is_load,
  kind_from_c,
  loaded_from_c,
  loader_from_c,
  phase_from_c,
  row_from_c,
  rows_from_c,
  run_from_c,
  runs_from_c,
  slot_listed,
  stage_from_c,
  stand_from_c,
  table_from_c,
  tables_from_c,
  ticket_from_c,
};

use crate::layout::range_of;
use crate::members::{
    PlainCpu, PlainFrame, PlainGuest, PlainLoad, PlainRow, PlainRun, PlainSlot, PlainTable,
};
use c_words::{row_of as owner_row_of, target_of};
use call_table::{VmId, VmKind};
use ghost_spec::cpu::GhostCpu;
use ghost_spec::parts::{GhostPhase, GhostSlot, GhostStand};
use ghost_trees::tree::Table;
use page_state::{PageRange, Row, Run};
use reference_model::{Loaded, Stage, Ticket};
use std::alloc::{AllocError, Global};

/// The most vCPUs of a VM (profile).
const VCPUS: u64 = 8;

/// The run that a plain run says of a tree.
fn run_of(tree: u64, run: PlainRun) -> Option<Run>
    ensures { result ≡ run_from_c tree run }
{
    if run.tree != tree {
        return None;
    }
    let target = target_of(run.word)?;
    Some(Run {
        pages: range_of(run.page, run.count),
        target,
    })
}

/// The runs of a tree.
pub(crate) fn runs_of(alloc: Global, runs: &[PlainRun], tree: u64) -> Result<Vec<Run>, AllocError>
    ensures { IfOk result (λ v. v.items ≡ runs_from_c runs.now tree) }
{
    runs.iter()
        .filter_map(|run| run_of(tree, *run))
        .collect(alloc)
}

/// The table that a plain table says of a tree.
fn table_of(tree: u64, table: PlainTable) -> Option<Table>
    ensures { result ≡ table_from_c tree table }
{
    if table.tree != tree {
        return None;
    }
    Some(Table {
        block: (table.height, table.index),
        frame: table.frame,
    })
}

/// The tables of a tree.
pub(crate) fn tables_of(
    alloc: Global,
    tables: &[PlainTable],
    tree: u64,
) -> Result<Vec<Table>, AllocError>
    ensures { IfOk result (λ v. v.items ≡ tables_from_c tables.now tree) }
{
    tables
        .iter()
        .filter_map(|table| table_of(tree, *table))
        .collect(alloc)
}

/// The free frame of a pool.
fn frame_of(pool: u64, frame: PlainFrame) -> Option<u64>
    ensures { result ≡ frame_from_c pool frame }
{
    if frame.pool == pool {
        Some(frame.frame)
    } else {
        None
    }
}

/// The free frames of a pool.
pub(crate) fn frames_of(
    alloc: Global,
    frames: &[PlainFrame],
    pool: u64,
) -> Result<Vec<u64>, AllocError>
    ensures { IfOk result (λ v. v.items ≡ frames_from_c frames.now pool) }
{
    frames
        .iter()
        .filter_map(|frame| frame_of(pool, *frame))
        .collect(alloc)
}

/// The run of owner rows.
fn row_of(row: PlainRow) -> Option<run_list::Run<Row>>
    ensures { result ≡ row_from_c row }
{
    let value = owner_row_of(row.owner)?;
    Some(run_list::Run {
        pages: range_of(row.frame, row.count),
        value,
    })
}

/// The runs of owner rows.
pub(crate) fn row_runs_of(
    alloc: Global,
    rows: &[PlainRow],
) -> Result<Vec<run_list::Run<Row>>, AllocError>
    ensures { IfOk result (λ v. v.items ≡ rows_from_c rows.now) }
{
    rows.iter().filter_map(|row| row_of(*row)).collect(alloc)
}

/// The stage of a slot.
fn stand_of(number: u64) -> GhostStand
    ensures { stand_in result ≡ stand_from_c number }
{
    match number {
        1 => GhostStand::Reserved,
        2 => GhostStand::Opened,
        3 => GhostStand::Closing,
        _ => GhostStand::Vacant,
    }
}

/// The phase of a guest.
pub(crate) fn phase_of(number: u64) -> GhostPhase
    ensures { phase_in result ≡ phase_from_c number }
{
    match number {
        1 => GhostPhase::Live,
        2 => GhostPhase::Dying,
        _ => GhostPhase::Empty,
    }
}

/// The kind of a VM.
pub(crate) fn kind_of(number: u64) -> VmKind
    ensures { result ≡ kind_from_c number }
{
    if number == 1 {
        VmKind::Protected
    } else {
        VmKind::Plain
    }
}

/// The stage of a ticket.
fn stage_of(number: u64) -> Stage
    ensures { result ≡ stage_from_c number }
{
    match number {
        0 => Stage::Booked,
        1 => Stage::Installed,
        2 => Stage::Closing,
        3 => Stage::Dying,
        _ => Stage::Finished,
    }
}

/// Whether a load is that of a vCPU of a slot.
fn is_load_of(slot: u64, vcpu: u64, load: PlainLoad) -> bool
    ensures { result ≡ is_load slot vcpu load }
{
    load.slot == slot && load.vcpu == vcpu
}

/// The CPU that has a vCPU loaded.
fn loader_of(loads: &[PlainLoad], slot: u64, vcpu: u64) -> Option<u64>
    ensures { result ≡ loader_from_c loads.now slot vcpu }
{
    let load = loads.iter().find(|load| is_load_of(slot, vcpu, **load))?;
    Some(load.cpu)
}

/// The CPUs that have the vCPUs of a slot loaded, by vCPU.
fn loaders_of(alloc: Global, loads: &[PlainLoad], slot: u64) -> Result<Vec<Option<u64>>, AllocError>
    ensures { IfOk result
        (λ v. (i : ℕ)
        → get_or v.items i None
        ≡ (if nat_lt i 8 then loader_from_c loads.now slot i else None)) }
{
    let mut loaders = Vec::new(alloc);
    for vcpu in 0..VCPUS {
        loaders.push(loader_of(loads, slot, vcpu))?;
    }
    Ok(loaders)
}

/// The first slot of a number.
fn found_slot(slots: &[PlainSlot], number: u64) -> Option<PlainSlot>
    ensures { result ≡ find (λ x. x.slot == number) slots.now }
{
    slots.iter().copied().find(|slot| slot.slot == number)
}

/// The slot of a number, or one as at boot.
pub(crate) fn listed_slot(slots: &[PlainSlot], number: u64) -> PlainSlot
    ensures { result ≡ slot_listed slots.now number }
{
    found_slot(slots, number).unwrap_or(PlainSlot {
        slot: 0,
        stand: 0,
        generation: 1,
        kind: 0,
        vcpus: 0,
    })
}

/// The first guest of a slot.
fn found_guest(guests: &[PlainGuest], slot: u64) -> Option<PlainGuest>
    ensures { result ≡ find (λ x. x.slot == slot) guests.now }
{
    guests.iter().copied().find(|guest| guest.slot == slot)
}

/// The guest of a slot, or an empty one.
pub(crate) fn listed_guest(guests: &[PlainGuest], slot: u64) -> PlainGuest
    ensures { result ≡ guest_listed guests.now slot }
{
    found_guest(guests, slot).unwrap_or(PlainGuest {
        slot: 0,
        phase: 0,
        generation: 0,
        kind: 0,
    })
}

/// A slot of the table of VMs.
pub(crate) fn slot_of(
    alloc: Global,
    loads: &[PlainLoad],
    number: u64,
    slot: PlainSlot,
) -> Result<GhostSlot, AllocError>
    ensures { IfOk result (λ s. slot_in s ≡ slot_filled loads.now number slot) }
{
    Ok(GhostSlot {
        stand: stand_of(slot.stand),
        generation: slot.generation,
        kind: kind_of(slot.kind),
        vcpus: slot.vcpus,
        loaded: loaders_of(alloc, loads, number)?,
    })
}

/// The VM of a slot and a generation.
fn vm_of(slot: u64, generation: u64) -> VmId
    ensures { result ≡ record { slot = slot; generation = generation } }
{
    VmId { slot, generation }
}

/// What a CPU has loaded.
fn loaded_of(cpu: PlainCpu) -> Option<Loaded>
    ensures { result ≡ loaded_from_c cpu }
{
    if cpu.has_vcpu == 0 {
        return None;
    }
    Some(Loaded {
        vm: vm_of(cpu.vcpu_slot, cpu.vcpu_generation),
        vcpu: cpu.vcpu,
    })
}

/// A CPU's hand.
fn hand_of(cpu: PlainCpu) -> Option<PageRange>
    ensures { result ≡ hand_from_c cpu }
{
    if cpu.has_hand == 0 {
        return None;
    }
    Some(range_of(cpu.hand_first, cpu.hand_count))
}

/// A CPU's ticket.
fn ticket_of(cpu: PlainCpu) -> Option<Ticket>
    ensures { result ≡ ticket_from_c cpu }
{
    if cpu.has_ticket == 0 {
        return None;
    }
    Some(Ticket {
        vm: vm_of(cpu.ticket_slot, cpu.ticket_generation),
        kind: kind_of(cpu.ticket_kind),
        stage: stage_of(cpu.ticket_stage),
    })
}

/// A CPU's own state.
fn cpu_of(cpu: PlainCpu) -> GhostCpu
    ensures { cpu_in result ≡ cpu_from_c cpu }
{
    GhostCpu {
        loaded: loaded_of(cpu),
        hand: hand_of(cpu),
        ticket: ticket_of(cpu),
    }
}

/// The first CPU of a number.
fn found_cpu(cpus: &[PlainCpu], number: u64) -> Option<PlainCpu>
    ensures { result ≡ find (λ x. x.cpu == number) cpus.now }
{
    cpus.iter().copied().find(|cpu| cpu.cpu == number)
}

/// The CPU of a number, or one with nothing.
fn listed_cpu(cpus: &[PlainCpu], number: u64) -> PlainCpu
    ensures { result ≡ cpu_listed cpus.now number }
{
    found_cpu(cpus, number).unwrap_or(PlainCpu {
        cpu: 0,
        has_vcpu: 0,
        vcpu_slot: 0,
        vcpu_generation: 0,
        vcpu: 0,
        has_hand: 0,
        hand_first: 0,
        hand_count: 0,
        has_ticket: 0,
        ticket_slot: 0,
        ticket_generation: 0,
        ticket_kind: 0,
        ticket_stage: 0,
    })
}

/// The own states of `count` CPUs.
pub(crate) fn cpus_of(
    alloc: Global,
    cpus: &[PlainCpu],
    count: u64,
) -> Result<Vec<GhostCpu>, AllocError>
    ensures { IfOk result
        (λ v. map cpu_in v.items
        ≡ map (λ c. cpu_from_c (cpu_listed cpus.now c)) (range_with_len 0 count)) }
{
    let mut made = Vec::new(alloc);
    for number in 0..count {
        made.push(cpu_of(listed_cpu(cpus, number)))?;
    }
    Ok(made)
}
