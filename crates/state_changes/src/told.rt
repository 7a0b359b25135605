//! Two states.
ghost use Rattle.std.specs.Prelude.{◌≡◌, ℕ, OnOk, get_or, is_some, length, map};
ghost use Rattle.page_state.specs.Rows.{advance_row};
ghost use Rattle.reference_model.specs.model.State.{no_guest, no_slot};
ghost use Rattle.run_list.specs.Runs.{run_map};
ghost use Rattle.ghost_spec.specs.States.{contents_in, guest_in, slot_in, AreKeptGuests, IsKept};
ghost use Rattle.ghost_spec.specs.Views.{cpu_in};
ghost use Rattle.state_changes.specs.Changed.{guest_name, ReportsAll, ReportsCpu, ReportsEntries, ReportsGuest, ReportsMaps, ReportsRest, ReportsSlot};
ghost use Rattle.state_changes.specs.Together.{Adds};
ghost use Rattle.state_changes.specs.Told.{ReportsGuestMaps, ReportsGuests, ReportsSlots};

use crate::heads::{add_guest, add_slot};
use crate::lines::add_count;
use crate::maps::{Label, add_entries, add_rows};
use crate::own::add_cpu;
use ghost_spec::cpu::GhostCpu;
use ghost_spec::lists::GhostLists;
use ghost_spec::parts::{GhostGuest, GhostSlot};
use ghost_spec::state::Ghost;
use std::alloc::{AllocError, Global};

/// The number of VM slots, and of guests.
const SLOTS: usize = 64;

/// Adds to a text the changes from one state to another: of each tree the entries of pages, of memory frames the owner
/// rows, the number of free frames of the shared pool, of each guest its phase, generation, kind and number of free
/// frames, each VM slot with the CPU of each vCPU, and each CPU's loaded vCPU, hand and ticket. Both states have the
/// same memory.
// It doesn't ask the rule of the step: docs/DECISIONS.md, 22.
pub fn add_changes(
    text: &mut Vec<u8>,
    global: Global,
    cpu: u64,
    before: &Ghost,
    after: &Ghost,
) -> Result<(), AllocError>
    requires frames { (f : ℕ)
        → is_some (run_map advance_row before.now.shared.rows.runs f)
        ≡ is_some (run_map advance_row after.now.shared.rows.runs f) }
    ensures { OnOk result
        (Adds
        (ReportsAll (contents_in before.now) (contents_in after.now) cpu) text.old.items
        text.new.items) }
{
    let old = before.lists();
    let new = after.lists();
    add_maps(text, global, old, new)?;
    add_rest(text, global, cpu, old, new)?;
    Ok(())
}

/// The maps of all trees, and the owner rows.
fn add_maps(
    text: &mut Vec<u8>,
    global: Global,
    before: &GhostLists,
    after: &GhostLists,
) -> Result<(), AllocError>
    requires kept { IsKept before.now }
    requires next { IsKept after.now }
    requires frames { (f : ℕ)
        → is_some (run_map advance_row before.now.shared.rows.runs f)
        ≡ is_some (run_map advance_row after.now.shared.rows.runs f) }
    ensures { OnOk result
        (Adds
        (ReportsMaps (contents_in before.now) (contents_in after.now)) text.old.items
        text.new.items) }
{
    let old = &before.shared;
    let new = &after.shared;
    add_entries(text, global, Label::Host, &old.host, &new.host)?;
    add_entries(text, global, Label::Hyp, &old.hyp, &new.hyp)?;
    add_guest_maps(text, global, &before.guests, &after.guests)?;
    add_rows(text, global, &old.rows, &new.rows)?;
    Ok(())
}

/// The maps of all guests.
fn add_guest_maps(
    text: &mut Vec<u8>,
    global: Global,
    before: &Vec<GhostGuest>,
    after: &Vec<GhostGuest>,
) -> Result<(), AllocError>
    requires kept { AreKeptGuests before.now.items }
    requires next { AreKeptGuests after.now.items }
    requires count { length before.now.items ≡ 64 }
    requires as_many { length after.now.items ≡ 64 }
    ensures { OnOk result
        (Adds (ReportsGuestMaps before.now.items after.now.items) text.old.items text.new.items) }
{
    for slot in 0..SLOTS {
        add_entries(
            text,
            global,
            Label::Guest(slot as u64),
            &before[slot].tree,
            &after[slot].tree,
        )?;
    }
    Ok(())
}

/// Adds the other changes.
fn add_rest(
    text: &mut Vec<u8>,
    global: Global,
    cpu: u64,
    before: &GhostLists,
    after: &GhostLists,
) -> Result<(), AllocError>
    requires kept { IsKept before.now }
    requires next { IsKept after.now }
    ensures { OnOk result
        (Adds
        (ReportsRest (contents_in before.now) (contents_in after.now) cpu) text.old.items
        text.new.items) }
{
    add_count(text, global, &before.shared.free, &after.shared.free)?;
    add_guests(text, global, &before.guests, &after.guests)?;
    add_slots(text, global, &before.vms, &after.vms)?;
    add_own(text, global, cpu, before, after)?;
    Ok(())
}

/// The state of a CPU.
fn add_own(
    text: &mut Vec<u8>,
    global: Global,
    cpu: u64,
    before: &GhostLists,
    after: &GhostLists,
) -> Result<(), AllocError>
    ensures { OnOk result
        (Adds
        (ReportsCpu ((contents_in before.now).cpu cpu)
        ((contents_in after.now).cpu cpu)) text.old.items text.new.items) }
{
    add_cpu(text, global, cpu_of(before, cpu), cpu_of(after, cpu))?;
    Ok(())
}

/// A CPU's own state. One that the state hasn't has nothing.
fn cpu_of(state: &GhostLists, cpu: u64) -> GhostCpu
    ensures { cpu_in result ≡ (contents_in state.now).cpu cpu }
{
    match state.cpus.get(cpu as usize) {
        Some(own) => *own,
        None => GhostCpu::NONE,
    }
}

/// All guests.
fn add_guests(
    text: &mut Vec<u8>,
    global: Global,
    before: &Vec<GhostGuest>,
    after: &Vec<GhostGuest>,
) -> Result<(), AllocError>
    requires count { length before.now.items ≡ 64 }
    requires as_many { length after.now.items ≡ 64 }
    ensures { OnOk result
        (Adds (ReportsGuests before.now.items after.now.items) text.old.items text.new.items) }
{
    for slot in 0..SLOTS {
        add_guest(text, global, slot as u64, &before[slot], &after[slot])?;
    }
    Ok(())
}

/// All VM slots.
fn add_slots(
    text: &mut Vec<u8>,
    global: Global,
    before: &Vec<GhostSlot>,
    after: &Vec<GhostSlot>,
) -> Result<(), AllocError>
    requires count { length before.now.items ≡ 64 }
    requires as_many { length after.now.items ≡ 64 }
    ensures { OnOk result
        (Adds (ReportsSlots before.now.items after.now.items) text.old.items text.new.items) }
{
    for slot in 0..SLOTS {
        add_slot(text, global, slot as u64, &before[slot], &after[slot])?;
    }
    Ok(())
}
