//! The kept state with the trees that were found, and the owner rows that follow from them.
ghost use Rattle.std.specs.Prelude.{◌≡◌, ◌+◌, ◌<◌, ℕ, All, IfOk, get_or, length, map};
ghost use Rattle.page_state.specs.Trees.{no_tree};
ghost use Rattle.ghost_trees.specs.KeptTrees.{IsKeptTree};
ghost use Rattle.ghost_trees.specs.Trees.{tree_in_lists};
ghost use Rattle.ghost_judge.specs.Audits.{AreMapsKept};
ghost use Rattle.ghost_spec.specs.States.{contents_in, guest_in, ghost_state};
ghost use Rattle.table_audit.specs.Found.{found_with, guest_with, AreTreesFrom, AreTreesKept, AreTreesOf};

use ghost_rows::rows_from_scratch;
use ghost_spec::lists::GhostLists;
use ghost_spec::parts::GhostGuest;
use ghost_spec::state::Ghost;
use ghost_trees::tree::Tree;
use std::alloc::{AllocError, Global};

/// A guest with another tree.
fn guest_of(alloc: Global, guest: &GhostGuest, tree: &Tree) -> Result<GhostGuest, AllocError>
    requires { IsKeptTree tree.now }
    ensures guest { IfOk result (λ g. guest_in g ≡ guest_with (guest_in guest.now) (tree_in_lists tree.now)) }
    ensures kept { IfOk result (λ g. IsKeptTree g.tree) }
{
    Ok(GhostGuest {
        phase: guest.phase,
        generation: guest.generation,
        kind: guest.kind,
        tree: tree.copied(alloc)?,
        free: Vec::from_slice(alloc, guest.free.as_slice())?,
    })
}

/// The guests with other trees: those after the first two.
fn guests_of(
    alloc: Global,
    guests: &[GhostGuest],
    trees: &[Tree],
) -> Result<Vec<GhostGuest>, AllocError>
    requires guests { length guests.now ≡ 64 }
    requires trees { length trees.now ≡ 66 }
    requires kept { All IsKeptTree trees.now }
    ensures guests { IfOk result (λ v. AreTreesOf guests.now trees.now 64 v.items) }
    ensures kept { IfOk result (λ v. All (λ g. IsKeptTree g.tree) v.items) }
    ensures count { IfOk result (λ v. length v.items ≡ 64) }
{
    let mut made = Vec::with_capacity(alloc, 64)?;
    for v in 0..64usize {
        made.push(guest_of(alloc, &guests[v], &trees[2 + v])?)?;
    }
    Ok(made)
}

/// The trees of the host, of the hypervisor and of the guests.
#[derive(Drop)]
struct Trees {
    host: Tree,
    hyp: Tree,
    guests: Vec<GhostGuest>,
}

/// All trees.
fn all_trees(alloc: Global, guests: &[GhostGuest], trees: &[Tree]) -> Result<Trees, AllocError>
    requires guests { length guests.now ≡ 64 }
    requires trees { length trees.now ≡ 66 }
    requires kept { All IsKeptTree trees.now }
    ensures found { IfOk result (AreTreesFrom guests.now trees.now) }
    ensures kept { IfOk result AreTreesKept }
{
    Ok(Trees {
        host: trees[0].copied(alloc)?,
        hyp: trees[1].copied(alloc)?,
        guests: guests_of(alloc, guests, trees)?,
    })
}

/// The kept state with the trees, and the owner row of each memory frame that follows from these, the pools and the hands.
pub(crate) fn walked_lists(
    alloc: Global,
    kept: &Ghost,
    trees: &[Tree],
) -> Result<GhostLists, AllocError>
    requires trees { length trees.now ≡ 66 }
    requires kept { All IsKeptTree trees.now }
    ensures contents { IfOk result (λ g. contents_in g ≡ found_with kept.now trees.now) }
    ensures ready { IfOk result AreMapsKept }
{
    let copy = kept.copied(alloc)?;
    let mut lists = copy.into_lists();
    let Ok(made) = all_trees(alloc, lists.guests.as_slice(), trees) else {
        drop(lists);
        return Err(AllocError);
    };
    let Trees { host, hyp, guests } = made;
    lists.shared.host = host;
    lists.shared.hyp = hyp;
    lists.guests = guests;
    let Ok(rows) = rows_from_scratch(alloc, &lists) else {
        drop(lists);
        return Err(AllocError);
    };
    lists.shared.rows = rows;
    Ok(lists)
}
