//! The trees of parts on lists: their tables as a walk finds them, and their runs as the maplets keep them or as the walk
//! finds them too.
ghost use Rattle.std.specs.Prelude.{◌≡◌, ◌*◌, All, IfOk, OnOk, length, map, slice_get, sum_by};
ghost use Rattle.page_state.specs.Runs.{IsCoarsest};
ghost use Rattle.table_tree.specs.Reading.{count_of};
ghost use Rattle.table_tree.specs.View.{tables_of, tree_of};
ghost use Rattle.guest_component.specs.View.{guest_of, runs_of as runs_kept};
ghost use Rattle.part_types.specs.View.{guest_held};
ghost use Rattle.hypercalls.specs.Stands.{at_place};
ghost use Rattle.reference_model.specs.model.State.{no_guest};
ghost use Rattle.ghost_spec.specs.Used.{guests_in};
ghost use Rattle.ghost_spec.specs.Kept.{IsKeptGuest};
ghost use Rattle.ghost_trees.specs.KeptTrees.{IsKeptTree};
ghost use Rattle.ghost_trees.specs.Small.{AreSmall};
ghost use Rattle.ghost_spec.specs.States.{guest_in, phase_in, AreKeptGuests};
ghost use Rattle.ghost_trees.specs.Trees.{tree_in_lists};
ghost use Rattle.guest_component.specs.Bodies.{body_of, phase_of};
ghost use Rattle.ghost_oracle.specs.Counted.{HasRead, body_tables, guest_tables};
ghost use Rattle.ghost_oracle.specs.Low.{IsLowGuest};
ghost use Rattle.ghost_oracle.specs.inner.Eights.{HasLooked};

use crate::walk::walk;
use component::Component;
use ghost_spec::parts::{GhostGuest, GhostPhase};
use ghost_trees::tree::Tree;
use guest_component::{Body, Guest, Phase};
use hyp_pool::Pool;
use maplets::Maplets;
use page_state::Run;
use part_types::GuestPart;
use std::alloc::{AllocError, Allocator, Global};
use table_tree::Reads;

/// Where the runs of a map come from.
#[derive(Clone, Copy)]
pub enum Source {
    /// The maplets that are kept.
    Maplets,
    /// A walk of all words.
    Words,
}

/// The runs of maplets. Room for all of them is taken at once.
fn runs_of(alloc: Global, maplets: &Maplets, few: usize) -> Result<Vec<Run>, AllocError>
    ensures runs { IfOk result (λ v. v.items ≡ maplets.now.runs) }
    ensures small { IfOk result (λ v. AreSmall v.items) }
    ensures coarsest { IfOk result (λ v. IsCoarsest v.items) }
{
    let mut runs = Vec::with_capacity(alloc, few)?;
    for run in maplets.iter() {
        runs.push(run)?;
    }
    Ok(runs)
}

/// The free frames of a pool.
pub(crate) fn frames_of(alloc: Global, pool: &Pool) -> Result<Vec<u64>, AllocError>
    ensures { IfOk result (λ v. v.items ≡ pool.now.frames) }
{
    let mut frames = Vec::with_capacity(alloc, pool.free())?;
    for frame in pool.frames() {
        frames.push(frame.0)?;
    }
    Ok(frames)
}

/// A component's tree. The walk takes room for as many runs as the maplets have: in most cases it finds that many.
pub(crate) fn tree_from<A: Allocator>(
    alloc: Global,
    component: &Component<A>,
    source: Source,
    reads: &mut Reads,
) -> Result<Tree, AllocError>
    ensures tree { IfOk result (λ t. tree_in_lists t ≡ tree_of component.now.tree) }
    ensures kept { IfOk result IsKeptTree }
    ensures reads { OnOk result
        (HasRead (count_of reads.old) (tables_of component.now.tree) (count_of reads.new)) }
    ensures runs { source ≡ Source.Maplets → IfOk result (λ t. t.runs.items ≡ component.now.maplets.runs) }
{
    let tree = component.tree();
    let room = component.maplets().len();
    let walked = walk(alloc, room, tree.geometry, &tree.table, reads)?;
    match source {
        Source::Maplets => tree_with_maplets(alloc, &walked, component),
        Source::Words => Ok(walked),
    }
}

/// The runs of maplets, and the tables that a walk found.
pub(crate) fn with_maplets(
    alloc: Global,
    walked: &Tree,
    maplets: &Maplets,
) -> Result<Tree, AllocError>
    ensures runs { IfOk result (λ t. t.runs.items ≡ maplets.now.runs) }
    ensures tables { IfOk result (λ t. t.tables.items ≡ walked.now.tables.items) }
    ensures kept { IfOk result IsKeptTree }
{
    Ok(Tree {
        runs: runs_of(alloc, maplets, walked.runs.len())?,
        tables: Vec::from_slice(alloc, walked.tables.as_slice())?,
    })
}

/// A component's tree: the runs of its maplets, and the tables that a walk found.
pub(crate) fn tree_with_maplets<A: Allocator>(
    alloc: Global,
    walked: &Tree,
    component: &Component<A>,
) -> Result<Tree, AllocError>
    requires { tree_in_lists walked.now ≡ tree_of component.now.tree }
    ensures tree { IfOk result (λ t. tree_in_lists t ≡ tree_of component.now.tree) }
    ensures kept { IfOk result IsKeptTree }
    ensures runs { IfOk result (λ t. t.runs.items ≡ component.now.maplets.runs) }
{
    with_maplets(alloc, walked, component.maplets())
}

/// The phase of a guest that isn't Empty.
pub fn phase_from(phase: Phase) -> GhostPhase
    ensures { phase_in result ≡ phase_of phase }
{
    match phase {
        Phase::Live => GhostPhase::Live,
        Phase::Dying => GhostPhase::Dying,
    }
}

/// A guest that isn't Empty.
fn body_from<A: Allocator>(
    alloc: Global,
    body: &Body<A>,
    source: Source,
    reads: &mut Reads,
) -> Result<GhostGuest, AllocError>
    ensures guest { IfOk result (λ g. guest_in g ≡ body_of body.now) }
    ensures tree { IfOk result (λ g. IsKeptTree g.tree) }
    ensures reads { OnOk result
        (HasRead (count_of reads.old) (tables_of body.now.map.tree) (count_of reads.new)) }
    ensures kept { IsLowGuest (body_of body.now) → IfOk result IsKeptGuest }
    ensures runs { source ≡ Source.Maplets → IfOk result (λ g. g.tree.runs.items ≡ body.now.map.maplets.runs) }
{
    Ok(GhostGuest {
        phase: phase_from(body.phase),
        generation: body.generation,
        kind: body.kind,
        tree: tree_from(alloc, &body.map, source, reads)?,
        free: frames_of(alloc, &body.pool)?,
    })
}

/// A guest.
pub(crate) fn guest_from<A: Allocator>(
    alloc: Global,
    guest: &Guest<A>,
    source: Source,
    reads: &mut Reads,
) -> Result<GhostGuest, AllocError>
    ensures guest { IfOk result (λ g. guest_in g ≡ guest_of guest.now) }
    ensures tree { IfOk result (λ g. IsKeptTree g.tree) }
    ensures reads { OnOk result
        (HasLooked (count_of reads.old) (512 * body_tables guest.now.body) (count_of reads.new)) }
    ensures kept { IsLowGuest (guest_of guest.now) → IfOk result IsKeptGuest }
    ensures runs { source ≡ Source.Maplets → IfOk result (λ g. g.tree.runs.items ≡ runs_kept guest.now.body) }
{
    match guest.body() {
        Some(body) => body_from(alloc, body, source, reads),
        None => Ok(GhostGuest::none(alloc)),
    }
}

/// The guests.
pub(crate) fn guests_from<A: Allocator>(
    alloc: Global,
    parts: &[GuestPart<A>],
    reads: &mut Reads,
) -> Result<Vec<GhostGuest>, AllocError>
    ensures guests { IfOk result (λ v. map guest_in v.items ≡ map guest_held parts.now) }
    ensures trees { IfOk result (λ v. All (λ g. IsKeptTree g.tree) v.items) }
    ensures kept { All (λ g. IsLowGuest (guest_held g)) parts.now → IfOk result (λ v. AreKeptGuests v.items) }
    ensures reads { OnOk result
        (HasLooked (count_of reads.old) (512 * sum_by guest_tables parts.now)
        (count_of reads.new)) }
{
    let mut guests = Vec::with_capacity(alloc, parts.len())?;
    for part in parts {
        guests.push(guest_from(alloc, &part.guest, Source::Words, reads)?)?;
    }
    Ok(guests)
}

/// A guest that isn't Empty, with the runs of its maplets, and the tables that a walk found.
fn body_with_maplets<A: Allocator>(
    alloc: Global,
    found: &GhostGuest,
    body: &Body<A>,
) -> Result<GhostGuest, AllocError>
    requires { guest_in found.now ≡ body_of body.now }
    ensures guest { IfOk result (λ g. guest_in g ≡ body_of body.now) }
    ensures kept { IsLowGuest (body_of body.now) → IfOk result IsKeptGuest }
    ensures runs { IfOk result (λ g. g.tree.runs.items ≡ body.now.map.maplets.runs) }
{
    Ok(GhostGuest {
        phase: phase_from(body.phase),
        generation: body.generation,
        kind: body.kind,
        tree: tree_with_maplets(alloc, &found.tree, &body.map)?,
        free: Vec::from_slice(alloc, found.free.as_slice())?,
    })
}

/// A guest with the runs of its maplets, and the tables that a walk found.
fn guest_with_maplets<A: Allocator>(
    alloc: Global,
    found: &GhostGuest,
    guest: &Guest<A>,
) -> Result<GhostGuest, AllocError>
    requires { guest_in found.now ≡ guest_of guest.now }
    ensures guest { IfOk result (λ g. guest_in g ≡ guest_of guest.now) }
    ensures kept { IsLowGuest (guest_of guest.now) → IfOk result IsKeptGuest }
    ensures runs { IfOk result (λ g. g.tree.runs.items ≡ runs_kept guest.now.body) }
{
    match guest.body() {
        Some(body) => body_with_maplets(alloc, found, body),
        None => Ok(GhostGuest::none(alloc)),
    }
}

/// The guests with the runs of their maplets, and the tables that a walk found.
pub(crate) fn guests_with_maplets<A: Allocator>(
    alloc: Global,
    found: &[GhostGuest],
    parts: &[GuestPart<A>],
) -> Result<Vec<GhostGuest>, AllocError>
    requires found { guests_in found.now ≡ (λ v. at_place no_guest guest_held (slice_get parts.now v)) }
    requires count { length found.now ≡ length parts.now }
    requires low { All (λ g. IsLowGuest (guest_held g)) parts.now }
    ensures guests { IfOk result (λ v. map guest_in v.items ≡ map guest_held parts.now) }
    ensures kept { IfOk result (λ v. AreKeptGuests v.items) }
    ensures runs { IfOk result
        (λ v. map (λ g. g.tree.runs.items) v.items
        ≡ map (λ g. runs_kept g.guest.body) parts.now) }
{
    let mut guests = Vec::with_capacity(alloc, parts.len())?;
    for v in 0..parts.len() {
        guests.push(guest_with_maplets(alloc, &found[v], &parts[v].guest)?)?;
    }
    Ok(guests)
}
