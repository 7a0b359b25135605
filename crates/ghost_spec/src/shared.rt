//! The Shared part on lists: its state, and the effect of a change on it.
ghost use Rattle.std.specs.Prelude.{◌≡◌, ◌+◌, ◌≤◌, ◌||◌, IfOk, OnOk, drop, length, nat_lt};
ghost use Rattle.page_state.specs.Tables.{need as need_of, returned as returned_of, edited as edited_of};
ghost use Rattle.reference_model.specs.model.Changes.{edit_of};
ghost use Rattle.reference_model.specs.model.Step.{shared_after, shared_need};

use crate::pair::both;
use crate::rows::copied_rows;
use ghost_trees::pool::give_all;
use ghost_trees::tree::{self, Tree};
use page_state::Row;
use reference_model::{Changes, MapChange};
use run_list::RunList;
use std::alloc::{AllocError, Global};
use std::mem;

/// The Shared part.
#[derive(Drop)]
pub struct Shared {
    /// The host's tree.
    pub host: Tree,
    /// The hypervisor's tree.
    pub hyp: Tree,
    /// The free frames, in increasing order.
    pub free: Vec<u64>,
    /// The owner row of each memory frame.
    pub rows: RunList<Row>,
}

ghost use Rattle.ghost_spec.specs.Kept.{IsKeptShared, IsSmallChange};
ghost use Rattle.ghost_trees.specs.KeptTrees.{IsKeptTree};
ghost use Rattle.ghost_trees.specs.Trees.{tree_in_lists};
ghost use Rattle.ghost_spec.specs.Views.{shared_in_lists};

impl Shared {
    ghost use Rattle.reference_model.specs.model.State.{no_shared};
    ghost use Rattle.ghost_spec.specs.Kept.{IsKeptShared};
    ghost use Rattle.ghost_spec.specs.Views.{shared_in_lists};

    /// A part that holds no frame.
    pub fn none(alloc: Global) -> Shared
        ensures none { shared_in_lists result ≡ no_shared }
        ensures kept { IsKeptShared result }
    {
        Shared {
            host: Tree::none(alloc),
            hyp: Tree::none(alloc),
            free: Vec::new(alloc),
            rows: RunList::new(alloc),
        }
    }

    /// A copy of the part.
    pub(crate) fn copied(&self, alloc: Global) -> Result<Shared, AllocError>
        requires { IsKeptShared self.now }
        ensures same { IfOk result (λ s. shared_in_lists s ≡ shared_in_lists self.now) }
        ensures kept { IfOk result IsKeptShared }
    {
        let free = Vec::from_slice(alloc, self.free.as_slice());
        let rows = copied_rows(alloc, self.rows.runs());
        let host = self.host.copied(alloc);
        let hyp = self.hyp.copied(alloc);
        let ((free, rows), (host, hyp)) = both(both(free, rows), both(host, hyp))?;
        Ok(Shared {
            host,
            hyp,
            free,
            rows,
        })
    }
}

/// How many tables a change needs on a tree.
pub(crate) fn needed(
    alloc: Global,
    depth: u64,
    tree: &Tree,
    change: Option<MapChange>,
) -> Result<usize, AllocError>
    requires depth { depth ≤ 3 }
    requires kept { IsKeptTree tree.now }
    requires small { IsSmallChange change }
    ensures { IfOk result (λ n. n ≡ need_of depth (tree_in_lists tree.now) (edit_of change)) }
{
    match change {
        Some(change) => tree::need(alloc, depth, tree, change.range, change.entry),
        None => Ok(0),
    }
}

/// The results of a change of a tree.
#[derive(Drop)]
pub(crate) struct Edited {
    /// How many tables it needed.
    pub(crate) need: usize,
    /// The frames of the tables that went, in order.
    pub(crate) returned: Vec<u64>,
}

/// A tree changes: its new tables get the frames, in order. Without a change it stays.
pub(crate) fn edit(
    alloc: Global,
    depth: u64,
    tree: &mut Tree,
    change: Option<MapChange>,
    frames: &[u64],
) -> Result<Edited, AllocError>
    requires depth { depth ≤ 3 }
    requires kept { IsKeptTree tree.old }
    requires small { IsSmallChange change }
    ensures tree { OnOk result
        (tree_in_lists tree.new
        ≡ edited_of depth (tree_in_lists tree.old) (edit_of change) frames.now) }
    ensures kept { IsKeptTree tree.new }
    ensures need { IfOk result (λ e. e.need ≡ need_of depth (tree_in_lists tree.old) (edit_of change)) }
    ensures returned { IfOk result
        (λ e. e.returned.items ≡ returned_of depth (tree_in_lists tree.old) (edit_of change)) }
{
    match change {
        Some(change) => {
            let made = tree::edited(alloc, depth, tree, change.range, change.entry, frames)?;
            // The old value goes to `drop`: the proof of a place written over would go through all parts of it.
            drop(mem::replace(tree, made.tree));
            Ok(Edited {
                need: made.need,
                returned: made.returned,
            })
        }
        None => Ok(Edited {
            need: 0,
            returned: Vec::new(alloc),
        }),
    }
}

/// The frames after the first `n`.
pub(crate) fn behind(free: &[u64], n: usize) -> &[u64]
    ensures { result.now ≡ drop n free.now }
{
    &free[n.min(free.len())..]
}

/// Whether there are fewer free frames than both trees need.
fn is_fewer(free: &[u64], host_need: usize, hyp_need: usize) -> bool
    ensures { result ≡ nat_lt (length free.now) (host_need + hyp_need) }
{
    host_need > free.len() || hyp_need > free.len() - host_need
}

/// Whether the pool has too few frames for the changes.
pub(crate) fn is_short(
    alloc: Global,
    depth: u64,
    shared: &Shared,
    changes: &Changes,
) -> Result<bool, AllocError>
    requires depth { depth ≤ 3 }
    requires kept { IsKeptShared shared.now }
    requires host { IsSmallChange changes.now.host }
    requires hyp { IsSmallChange changes.now.hyp }
    ensures { IfOk result
        (λ b. b
        ≡ nat_lt (length shared.now.free.items)
        (shared_need depth changes.now (shared_in_lists shared.now))) }
{
    let host_need = needed(alloc, depth, &shared.host, changes.host)?;
    let hyp_need = needed(alloc, depth, &shared.hyp, changes.hyp)?;
    Ok(is_fewer(shared.free.as_slice(), host_need, hyp_need))
}

/// Both maps change: the host's new tables get the lowest frames, the hypervisor's the next, and freed frames come
/// back. If the allocator refuses memory, both trees may have changed.
pub(crate) fn change(
    alloc: Global,
    depth: u64,
    shared: &mut Shared,
    changes: &Changes,
) -> Result<(), AllocError>
    requires depth { depth ≤ 3 }
    requires kept { IsKeptShared shared.old }
    requires host { IsSmallChange changes.now.host }
    requires hyp { IsSmallChange changes.now.hyp }
    ensures after { OnOk result
        (shared_in_lists shared.new
        ≡ shared_after depth changes.now (shared_in_lists shared.old)) }
    ensures rows { shared.new.rows ≡ shared.old.rows }
    ensures kept { IsKeptShared shared.new }
{
    let free = shared.free.as_slice();
    let host = edit(alloc, depth, &mut shared.host, changes.host, free)?;
    let rest = behind(free, host.need);
    let hyp = edit(alloc, depth, &mut shared.hyp, changes.hyp, rest)?;
    let mut left = Vec::from_slice(alloc, behind(rest, hyp.need))?;
    give_all(&mut left, hyp.returned.as_slice())?;
    give_all(&mut left, host.returned.as_slice())?;
    shared.free = left;
    Ok(())
}
