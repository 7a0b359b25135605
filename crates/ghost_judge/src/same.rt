//! Whether parts of two states are the same.
ghost use Rattle.std.specs.Prelude.{◌≡◌, ◌↔◌, ℕ, None, IsTrue, All, get_or};
ghost use Rattle.ghost_trees.specs.Trees.{table_of};
ghost use Rattle.ghost_spec.specs.States.{guest_in, slot_in};
ghost use Rattle.ghost_spec.specs.Views.{shared_in_lists};
ghost use Rattle.ghost_judge.specs.PartDifferences.{without_map, IsSamePool};
ghost use Rattle.ghost_judge.specs.inner.Same.{loads, unloaded, HasSameFrame};

use ghost_spec::parts::{GhostGuest, GhostSlot};
use ghost_spec::shared::Shared;
use ghost_trees::tree::{Table, table_at};

/// Whether each table of a list has the same frame in both others.
fn are_alike(tables: &[Table], a: &[Table], b: &[Table]) -> bool
    ensures { IsTrue result ↔ All (HasSameFrame a.now b.now) tables.now }
{
    tables
        .iter()
        .all(|t| table_at(a, t.block) == table_at(b, t.block))
}

/// Whether two lists have the same tables.
// inlined: most guests are Empty, and have none
#[inline(always)]
pub(crate) fn same_tables(a: &[Table], b: &[Table]) -> bool
    ensures { IsTrue result ↔ (table_of a.now ≡ table_of b.now) }
{
    if a.is_empty() && b.is_empty() {
        return true;
    }
    are_alike(a, a, b) && are_alike(b, a, b)
}

/// Whether the shared pools and the tables of the host and of the hypervisor are the same.
pub(crate) fn is_same_pool(a: &Shared, b: &Shared) -> bool
    ensures { IsTrue result ↔ IsSamePool (shared_in_lists a.now) (shared_in_lists b.now) }
{
    a.free == b.free
        && same_tables(a.host.tables.as_slice(), b.host.tables.as_slice())
        && same_tables(a.hyp.tables.as_slice(), b.hyp.tables.as_slice())
}

/// Whether two guests are the same apart from their maps.
#[inline(always)]
pub(crate) fn is_same_guest(a: &GhostGuest, b: &GhostGuest) -> bool
    ensures { IsTrue result ↔ (without_map (guest_in a.now) ≡ without_map (guest_in b.now)) }
{
    a.phase == b.phase
        && a.generation == b.generation
        && a.kind == b.kind
        && same_tables(a.tree.tables.as_slice(), b.tree.tables.as_slice())
        && a.free == b.free
}

/// The CPU that has a vCPU loaded; None past the list's end.
fn loader(loaded: &[Option<u64>], vcpu: usize) -> Option<u64>
    ensures { result ≡ get_or loaded.now vcpu None }
{
    if vcpu < loaded.len() {
        loaded[vcpu]
    } else {
        None
    }
}

/// Whether the same CPUs have the vCPUs loaded.
fn is_same_load(a: &[Option<u64>], b: &[Option<u64>]) -> bool
    ensures { IsTrue result ↔ ((i : ℕ) → get_or a.now i None ≡ get_or b.now i None) }
{
    for i in 0..a.len().max(b.len()) {
        if loader(a, i) != loader(b, i) {
            return false;
        }
    }
    true
}

/// The same, of two slots.
fn has_same_loads(a: &GhostSlot, b: &GhostSlot) -> bool
    ensures { IsTrue result ↔ (loads a.now.loaded.items ≡ loads b.now.loaded.items) }
{
    is_same_load(a.loaded.as_slice(), b.loaded.as_slice())
}

/// Whether two slots are the same apart from their loaded vCPUs.
fn is_same_unloaded(a: &GhostSlot, b: &GhostSlot) -> bool
    ensures { IsTrue result ↔ (unloaded (slot_in a.now) ≡ unloaded (slot_in b.now)) }
{
    a.stand == b.stand && a.generation == b.generation && a.kind == b.kind && a.vcpus == b.vcpus
}

/// Whether two slots are the same.
pub(crate) fn is_same_slot(a: &GhostSlot, b: &GhostSlot) -> bool
    ensures { IsTrue result ↔ (slot_in a.now ≡ slot_in b.now) }
{
    is_same_unloaded(a, b) && has_same_loads(a, b)
}
