//! What parts some of whose trees were poked keep, and what walking every word of them finds.
ghost use Rattle.std.specs.Prelude.{◌≡◌, ℕ, All, IfOk, Some, get_or, length, map};
ghost use Rattle.page_state.specs.LayoutView.{layout_of};
ghost use Rattle.ghost_trees.specs.KeptTrees.{IsKeptTree};
ghost use Rattle.reference_model.specs.model.State.{no_slot};
ghost use Rattle.part_types.specs.View.{cpu_of, vm_slots};
ghost use Rattle.ghost_spec.specs.States.{contents_in, slot_in};
ghost use Rattle.ghost_spec.specs.Views.{cpu_in};
ghost use Rattle.ghost_trees.specs.Trees.{tree_in_lists};
ghost use Rattle.ghost_judge.specs.Audits.{AreMapsKept};
ghost use Rattle.ghost_oracle.specs.Found.{scratch_rows, HasRowsOf};
ghost use Rattle.ghost_oracle.specs.RawFound.{AreRoomsFound, AreSlotsFound, IsRawFound, IsSlotFound, HasSameRawRows};
ghost use Rattle.ghost_oracle.specs.Seen.{raw_seen};

use crate::parts::{SlotsAndCpus, cpu_rooms, cpus_from, guest_rooms, slots_from};
use crate::raw::{RawComponent, RawGuest, RawParts, RawShared};
use crate::trees::{Source, frames_of, guest_from, phase_from, with_maplets};
use crate::walk::walk;
use ghost_rows::rows_from_scratch;
use ghost_spec::lists::{GhostLists, GhostRooms, copied_layout};
use ghost_spec::parts::GhostGuest;
use ghost_spec::rows::copied_rows;
use ghost_spec::shared::Shared;
use ghost_trees::tree::Tree;
use page_state::Row;
use part_types::GuestPart;
use run_list::RunList;
use std::alloc::{AllocError, Allocator, Global};
use table_tree::Reads;

/// A tree that may have been poked.
fn raw_tree<A: Allocator>(
    alloc: Global,
    component: &RawComponent<A>,
    source: Source,
) -> Result<Tree, AllocError>
    ensures kept { IfOk result IsKeptTree }
    ensures words { source ≡ Source.Words
        → IfOk result (λ t. tree_in_lists t ≡ (raw_seen component.now.tree).tree) }
    ensures runs { source ≡ Source.Maplets → IfOk result (λ t. t.runs.items ≡ component.now.maplets.runs) }
{
    let tree = &component.tree;
    let walked = walk(alloc, 0, tree.geometry, &tree.table, &mut Reads::new())?;
    match source {
        Source::Maplets => with_maplets(alloc, &walked, &component.maplets),
        Source::Words => Ok(walked),
    }
}

/// A guest that was poked.
fn raw_guest<A: Allocator>(
    alloc: Global,
    guest: &RawGuest<A>,
    source: Source,
) -> Result<GhostGuest, AllocError>
    ensures { (part : GuestPart A) → IfOk result (IsSlotFound source part (Some guest.now)) }
{
    Ok(GhostGuest {
        phase: phase_from(guest.phase),
        generation: guest.generation,
        kind: guest.kind,
        tree: raw_tree(alloc, &guest.map, source)?,
        free: frames_of(alloc, &guest.pool)?,
    })
}

/// The guest of a slot.
fn slot_guest<A: Allocator>(
    alloc: Global,
    part: &GuestPart<A>,
    held: &Option<RawGuest<A>>,
    source: Source,
) -> Result<GhostGuest, AllocError>
    ensures { IfOk result (IsSlotFound source part.now held.now) }
{
    match held {
        Some(guest) => raw_guest(alloc, guest, source),
        None => guest_from(alloc, &part.guest, source, &mut Reads::new()),
    }
}

/// The guests of all slots.
fn slot_guests<A: Allocator>(
    alloc: Global,
    guests: &[GuestPart<A>],
    poked: &[Option<RawGuest<A>>],
    source: Source,
) -> Result<Vec<GhostGuest>, AllocError>
    requires guests { length guests.now ≡ 64 }
    requires poked { length poked.now ≡ 64 }
    ensures found { IfOk result (λ v. AreSlotsFound source guests.now poked.now v.items) }
    ensures count { IfOk result (λ v. length v.items ≡ 64) }
{
    let mut found = Vec::new(alloc);
    for v in 0..64usize {
        found.push(slot_guest(alloc, &guests[v], &poked[v], source)?)?;
    }
    Ok(found)
}

/// The Shared part with these rows.
fn raw_shared<A: Allocator>(
    alloc: Global,
    part: &RawShared<A>,
    source: Source,
    rows: RunList<Row>,
) -> Result<Shared, AllocError>
    ensures host_kept { IfOk result (λ s. IsKeptTree s.host) }
    ensures hyp_kept { IfOk result (λ s. IsKeptTree s.hyp) }
    ensures host_words { source ≡ Source.Words
        → IfOk result (λ s. tree_in_lists s.host ≡ (raw_seen part.now.host.tree).tree) }
    ensures hyp_words { source ≡ Source.Words
        → IfOk result (λ s. tree_in_lists s.hyp ≡ (raw_seen part.now.hyp.tree).tree) }
    ensures host_runs { source ≡ Source.Maplets → IfOk result (λ s. s.host.runs.items ≡ part.now.host.maplets.runs) }
    ensures hyp_runs { source ≡ Source.Maplets → IfOk result (λ s. s.hyp.runs.items ≡ part.now.hyp.maplets.runs) }
    ensures free { IfOk result (λ s. s.free.items ≡ part.now.pool.frames) }
    ensures rows { IfOk result (λ s. s.rows ≡ rows) }
{
    Ok(Shared {
        free: frames_of(alloc, &part.pool)?,
        host: raw_tree(alloc, &part.host, source)?,
        hyp: raw_tree(alloc, &part.hyp, source)?,
        rows,
    })
}

/// The rooms of all logs.
fn raw_rooms<A: Allocator>(alloc: Global, parts: &RawParts<A>) -> Result<GhostRooms, AllocError>
    ensures { IfOk result (AreRoomsFound parts.now) }
{
    Ok(GhostRooms {
        vms: parts.vms.log.room(),
        shared: parts.shared.log.room(),
        guests: guest_rooms(alloc, parts.guests.as_slice())?,
        cpus: cpu_rooms(alloc, parts.cpus.as_slice())?,
    })
}

/// The slots, the CPUs and the rooms as they are.
fn raw_slots_and_cpus<A: Allocator>(
    alloc: Global,
    parts: &RawParts<A>,
) -> Result<SlotsAndCpus, AllocError>
    ensures layout { IfOk result (λ b. layout_of b.layout ≡ layout_of parts.now.layout) }
    ensures slots { IfOk result
        (λ b. (slot : ℕ)
        → get_or (map slot_in b.vms.items) slot (no_slot 1)
        ≡ (vm_slots parts.now.vms).slot slot) }
    ensures cpus { IfOk result (λ b. map cpu_in b.cpus.items ≡ map cpu_of parts.now.cpus.items) }
    ensures rooms { IfOk result (λ b. AreRoomsFound parts.now b.rooms) }
{
    Ok(SlotsAndCpus {
        layout: copied_layout(&parts.layout)?,
        vms: slots_from(alloc, &parts.vms.table)?,
        cpus: cpus_from(alloc, parts.cpus.as_slice())?,
        rooms: raw_rooms(alloc, parts)?,
    })
}

/// All parts, with these rows.
fn raw_from<A: Allocator>(
    alloc: Global,
    parts: &RawParts<A>,
    source: Source,
    rows: RunList<Row>,
) -> Result<GhostLists, AllocError>
    ensures found { IfOk result (IsRawFound source parts.now) }
    ensures rows { IfOk result (λ g. g.shared.rows ≡ rows) }
{
    let guests = slot_guests(
        alloc,
        parts.guests.as_slice(),
        parts.poked.as_slice(),
        source,
    )?;
    let shared = raw_shared(alloc, &parts.shared, source, rows)?;
    let Ok(beside) = raw_slots_and_cpus(alloc, parts) else {
        drop(shared);
        drop(guests);
        return Err(AllocError);
    };
    let SlotsAndCpus {
        layout,
        vms,
        cpus,
        rooms,
    } = beside;
    Ok(GhostLists {
        layout,
        vms,
        cpus,
        rooms,
        guests,
        shared,
    })
}

/// What the parts keep: the runs of their maplets, poked or not, and of the owner table, and all else as it is.
pub fn kept_raw<A: Allocator>(alloc: Global, parts: &RawParts<A>) -> Result<GhostLists, AllocError>
    ensures found { IfOk result (IsRawFound Source.Maplets parts.now) }
    ensures rows { IfOk result (HasSameRawRows parts.now) }
    ensures frames { IfOk result (HasRowsOf (layout_of parts.now.layout)) }
    ensures ready { IfOk result AreMapsKept }
{
    let rows = copied_rows(alloc, parts.shared.owners.runs())?;
    raw_from(alloc, parts, Source::Maplets, rows)
}

/// The state that a walk of every word finds from scratch: the map of each tree by its words alone, which may be
/// malformed, and the owner row of each memory frame by these maps, the tables, the pools and the hands.
pub fn recompute_raw<A: Allocator>(
    alloc: Global,
    parts: &RawParts<A>,
) -> Result<GhostLists, AllocError>
    ensures found { IfOk result (IsRawFound Source.Words parts.now) }
    ensures rows { IfOk result
        (λ g. (f : ℕ)
        → (contents_in g).shared.row f
        ≡ scratch_rows (layout_of parts.now.layout) (contents_in g) f) }
    ensures frames { IfOk result (HasRowsOf (layout_of parts.now.layout)) }
    ensures ready { IfOk result AreMapsKept }
{
    let mut found = raw_from(alloc, parts, Source::Words, RunList::new(alloc))?;
    let Ok(rows) = rows_from_scratch(alloc, &found) else {
        drop(found);
        return Err(AllocError);
    };
    found.shared.rows = rows;
    Ok(found)
}
