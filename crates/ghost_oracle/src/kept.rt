//! The reference state of all parts on lists: the kept one, and the one that a walk of every word finds. A walk for a
//! caller counts each word that it reads, which shows that it does read them.
ghost use Rattle.std.specs.Prelude.{◌≡◌, [], All, IfOk, OnOk, map};
ghost use Rattle.page_state.specs.LayoutView.{layout_of};
ghost use Rattle.page_state.specs.Rows.{HasPageBelow};
ghost use Rattle.run_list.specs.Runs.{AreInReach};
ghost use Rattle.part_types.specs.View.{cpu_of, guest_held, shared_of};
ghost use Rattle.ghost_spec.specs.Kept.{IsKeptShared};
ghost use Rattle.ghost_spec.specs.States.{ghost_state, guest_in, AreKeptGuests, IsKept};
ghost use Rattle.ghost_trees.specs.KeptTrees.{IsKeptTree};
ghost use Rattle.ghost_trees.specs.Trees.{tree_in_lists};
ghost use Rattle.table_tree.specs.Reading.{count_of};
ghost use Rattle.table_tree.specs.View.{tree_of};
ghost use Rattle.ghost_spec.specs.Views.{row_in, shared_in_lists};
ghost use Rattle.hypercalls.specs.Stands.{parts_layout, state_of, HasHistory};
ghost use Rattle.ghost_oracle.specs.Compared.{IsCompared};
ghost use Rattle.ghost_oracle.specs.Counted.{HasRead, shared_tables, tables_of_parts};
ghost use Rattle.ghost_oracle.specs.Found.{found_state, walked_state, with_row, HasRowsOf, HasSameMaplets, HasSameRows};
ghost use Rattle.ghost_oracle.specs.Low.{IsLowCpu};
ghost use Rattle.ghost_oracle.specs.inner.Trees.{AreTreesKept, IsFoundWith};

use crate::compared::Compared;
use crate::kept_and_walked::compared;
use crate::parts::{cpu_rooms, cpus_from, guest_rooms, slots_from};
use crate::trees::{
    Source, frames_of, guests_from, guests_with_maplets, tree_from, tree_with_maplets,
};
use ghost_rows::rows_from_scratch;
use ghost_spec::lists::{GhostLists, GhostRooms, copied_layout};
use ghost_spec::parts::GhostGuest;
use ghost_spec::rows::copied_rows;
use ghost_spec::shared::Shared;
use ghost_spec::state::Ghost;
use hypercalls::Parts;
use page_state::Row;
use part_types::SharedPart;
use run_list::RunList;
use std::alloc::{AllocError, Allocator, Global};
use table_tree::Reads;

/// The Shared part as a walk finds it, with these rows.
pub(crate) fn shared_from<A: Allocator>(
    alloc: Global,
    part: &SharedPart<A>,
    rows: RunList<Row>,
    reads: &mut Reads,
) -> Result<Shared, AllocError>
    requires reach { AreInReach HasPageBelow rows.runs }
    ensures shared { IfOk result (λ s. shared_in_lists s ≡ with_row (row_in rows.runs) (shared_of part.now)) }
    ensures kept { IfOk result IsKeptShared }
    ensures rows { IfOk result (λ s. s.rows ≡ rows) }
    ensures reads { OnOk result (HasRead (count_of reads.old) (shared_tables part.now) (count_of reads.new)) }
{
    Ok(Shared {
        free: frames_of(alloc, &part.pool)?,
        host: tree_from(alloc, &part.host, Source::Words, reads)?,
        hyp: tree_from(alloc, &part.hyp, Source::Words, reads)?,
        rows,
    })
}

/// The rooms of all logs.
fn rooms_from<A: Allocator>(alloc: Global, parts: &Parts<A>) -> Result<GhostRooms, AllocError>
    ensures vms { IfOk result (λ r. parts.now.vms.log.room ≡ r.vms) }
    ensures shared { IfOk result (λ r. parts.now.shared.log.room ≡ r.shared) }
    ensures guests { IfOk result (λ r. r.guests.items ≡ map (λ g. g.log.room) parts.now.guests.items) }
    ensures cpus { IfOk result (λ r. r.cpus.items ≡ map (λ k. k.log.room) parts.now.cpus.items) }
{
    Ok(GhostRooms {
        vms: parts.vms.log.room(),
        shared: parts.shared.log.room(),
        guests: guest_rooms(alloc, parts.guests.as_slice())?,
        cpus: cpu_rooms(alloc, parts.cpus.as_slice())?,
    })
}

/// All parts with this Shared part and these guests: the slots, the CPUs and the rooms as they are.
fn ghost_with<A: Allocator>(
    alloc: Global,
    parts: &Parts<A>,
    shared: Shared,
    guests: Vec<GhostGuest>,
) -> Result<GhostLists, AllocError>
    requires shared { shared_in_lists shared ≡ with_row (shared_in_lists shared).row (shared_of parts.now.shared) }
    requires guests { map guest_in guests.items ≡ map guest_held parts.now.guests.items }
    requires shared_kept { IsKeptShared shared }
    requires trees { All (λ g. IsKeptTree g.tree) guests.items }
    ensures with { IfOk result (IsFoundWith parts.now shared guests) }
    ensures kept { AreKeptGuests guests.items
        → All (λ k. IsLowCpu (cpu_of k)) parts.now.cpus.items
        → IfOk result IsKept }
{
    // One call gives both back, however many lists they hold.
    let Ok(layout) = copied_layout(&parts.layout) else {
        drop((shared, guests));
        return Err(AllocError);
    };
    let Ok(vms) = slots_from(alloc, &parts.vms.table) else {
        drop((shared, guests));
        return Err(AllocError);
    };
    let Ok(cpus) = cpus_from(alloc, parts.cpus.as_slice()) else {
        drop((shared, guests));
        return Err(AllocError);
    };
    let Ok(rooms) = rooms_from(alloc, parts) else {
        drop((shared, guests));
        return Err(AllocError);
    };
    Ok(GhostLists {
        layout,
        vms,
        shared,
        guests,
        cpus,
        rooms,
    })
}

/// All parts as a walk finds them, without owner rows.
fn found<A: Allocator>(
    alloc: Global,
    parts: &Parts<A>,
    reads: &mut Reads,
) -> Result<GhostLists, AllocError>
    ensures state { IfOk result (λ g. ghost_state g ≡ found_state (row_in []) (state_of parts.now)) }
    ensures layout { IfOk result (λ g. layout_of g.layout ≡ parts_layout parts.now) }
    ensures trees { IfOk result AreTreesKept }
    ensures kept { ∥ HasHistory parts.now ∥₁ → IfOk result IsKept }
    ensures reads { OnOk result (HasRead (count_of reads.old) (tables_of_parts parts.now) (count_of reads.new)) }
{
    let guests = guests_from(alloc, parts.guests.as_slice(), reads)?;
    let shared = shared_from(alloc, &parts.shared, RunList::new(alloc), reads)?;
    ghost_with(alloc, parts, shared, guests)
}

/// The Shared part with the runs of the maplets, the tables that a walk found, and the rows of the owner table.
fn shared_with_maplets<A: Allocator>(
    alloc: Global,
    found: &Shared,
    part: &SharedPart<A>,
) -> Result<Shared, AllocError>
    requires host { tree_in_lists found.now.host ≡ tree_of part.now.host.tree }
    requires hyp { tree_in_lists found.now.hyp ≡ tree_of part.now.hyp.tree }
    requires free { found.now.free.items ≡ part.now.pool.frames }
    ensures shared { IfOk result (λ s. shared_in_lists s ≡ shared_of part.now) }
    ensures kept { IfOk result IsKeptShared }
    ensures host { IfOk result (λ s. s.host.runs.items ≡ part.now.host.maplets.runs) }
    ensures hyp { IfOk result (λ s. s.hyp.runs.items ≡ part.now.hyp.maplets.runs) }
    ensures rows { IfOk result (λ s. s.rows.runs ≡ part.now.owners) }
{
    Ok(Shared {
        free: Vec::from_slice(alloc, found.free.as_slice())?,
        rows: copied_rows(alloc, part.owners.runs())?,
        host: tree_with_maplets(alloc, &found.host, &part.host)?,
        hyp: tree_with_maplets(alloc, &found.hyp, &part.hyp)?,
    })
}

/// All parts with the runs of all maplets, the tables that a walk found, and the rows of the owner table.
pub(crate) fn with_kept<A: Allocator>(
    alloc: Global,
    parts: &Parts<A>,
    found: &GhostLists,
) -> Result<GhostLists, AllocError>
    requires history { ∥ HasHistory parts.now ∥₁ }
    requires state { ghost_state found.now ≡ found_state (row_in []) (state_of parts.now) }
    requires kept { IsKept found.now }
    ensures state { IfOk result (λ g. ghost_state g ≡ state_of parts.now) }
    ensures layout { IfOk result (λ g. layout_of g.layout ≡ parts_layout parts.now) }
    ensures kept { IfOk result IsKept }
    ensures maplets { IfOk result (HasSameMaplets parts.now) }
    ensures rows { IfOk result (HasSameRows parts.now) }
    ensures frames { IfOk result (HasRowsOf (parts_layout parts.now)) }
{
    let guests = guests_with_maplets(alloc, found.guests.as_slice(), parts.guests.as_slice())?;
    let shared = shared_with_maplets(alloc, &found.shared, &parts.shared)?;
    ghost_with(alloc, parts, shared, guests)
}

/// What a walk found, with the owner row of each memory frame from scratch: by the maps, the tables, the pools and the hands.
pub(crate) fn with_scratch<A: Allocator>(
    alloc: Global,
    parts: &Parts<A>,
    found: GhostLists,
) -> Result<GhostLists, AllocError>
    requires state { ghost_state found ≡ found_state (row_in []) (state_of parts.now) }
    requires layout { layout_of found.layout ≡ parts_layout parts.now }
    requires trees { AreTreesKept found }
    ensures state { IfOk result
        (λ g. ghost_state g ≡ walked_state (parts_layout parts.now) (state_of parts.now)) }
    ensures layout { IfOk result (λ g. layout_of g.layout ≡ parts_layout parts.now) }
    ensures kept { IsKept found → IfOk result IsKept }
    ensures frames { IfOk result (HasRowsOf (parts_layout parts.now)) }
{
    let mut walked = found;
    let Ok(rows) = rows_from_scratch(alloc, &walked) else {
        drop(walked);
        return Err(AllocError);
    };
    walked.shared.rows = rows;
    Ok(walked)
}

/// What is kept: the runs of all maplets and of the owner table, and the tables, pools, slots, CPUs and rooms as they
/// are. Which tables there are is found by a walk, since nothing else keeps it.
pub fn kept<A: Allocator>(alloc: Global, parts: &Parts<A>) -> Result<Ghost, AllocError>
    requires history { ∥ HasHistory parts.now ∥₁ }
    ensures state { IfOk result (λ g. ghost_state g ≡ state_of parts.now) }
    ensures layout { IfOk result (λ g. layout_of g.layout ≡ parts_layout parts.now) }
    ensures maplets { IfOk result (HasSameMaplets parts.now) }
    ensures rows { IfOk result (HasSameRows parts.now) }
    ensures frames { IfOk result (HasRowsOf (parts_layout parts.now)) }
{
    let found = found(alloc, parts, &mut Reads::new())?;
    let kept = with_kept(alloc, parts, &found)?;
    Ok(Ghost::of_kept(kept))
}

/// The state that a walk of every descriptor finds from scratch: the map of each tree by its words alone, and the owner
/// row of each memory frame by these maps, the tables, the pools and the hands. Pools, slots, CPUs and rooms, which are
/// in no table, are as they are. If no calls lead to the parts, `Ghost::of` tests whether these lists make a state. It
/// adds the number of words that it reads to `reads`.
pub fn recompute<A: Allocator>(
    alloc: Global,
    parts: &Parts<A>,
    reads: &mut Reads,
) -> Result<GhostLists, AllocError>
    ensures state { IfOk result
        (λ g. ghost_state g ≡ walked_state (parts_layout parts.now) (state_of parts.now)) }
    ensures layout { IfOk result (λ g. layout_of g.layout ≡ parts_layout parts.now) }
    ensures frames { IfOk result (HasRowsOf (parts_layout parts.now)) }
    ensures kept { ∥ HasHistory parts.now ∥₁ → IfOk result IsKept }
    ensures reads { OnOk result (HasRead (count_of reads.old) (tables_of_parts parts.now) (count_of reads.new)) }
{
    let found = found(alloc, parts, reads)?;
    with_scratch(alloc, parts, found)
}

/// The kept state, as `kept` gives it, and the one that a walk of every descriptor finds, as `recompute` gives it, by
/// one walk that reads each word once. If the walk finds the kept runs and rows, as in every state that calls lead to,
/// both are one state. It adds the number of words that it reads to `reads`.
pub fn kept_and_walked<A: Allocator>(
    alloc: Global,
    parts: &Parts<A>,
    reads: &mut Reads,
) -> Result<Compared, AllocError>
    requires history { ∥ HasHistory parts.now ∥₁ }
    ensures compared { IfOk result (IsCompared parts.now) }
    ensures reads { OnOk result (HasRead (count_of reads.old) (tables_of_parts parts.now) (count_of reads.new)) }
{
    let found = found(alloc, parts, reads)?;
    compared(alloc, parts, found)
}
