//! The kept tree of a number.
ghost use Rattle.std.specs.Prelude.{◌≡◌, ◌<◌, length};
ghost use Rattle.ghost_trees.specs.KeptTrees.{IsKeptTree};
ghost use Rattle.ghost_trees.specs.Trees.{tree_in_lists};
ghost use Rattle.ghost_judge.specs.Audits.{AreMapsKept};
ghost use Rattle.ghost_spec.specs.States.{contents_in};
ghost use Rattle.page_state.specs.Runs.{map_of};
ghost use Rattle.c_trees.specs.Entries.{kept_map};

use ghost_spec::lists::GhostLists;
use ghost_trees::tree::Tree;

/// The kept tree of a number: 0 the host's, 1 the hypervisor's, 2 + v that of the guest in slot v.
pub(crate) fn kept_tree(kept: &GhostLists, tree: u64) -> &Tree
    requires kept { AreMapsKept kept.now }
    requires tree { tree < 66 }
    ensures map { map_of result.now.runs.items ≡ kept_map (contents_in kept.now) tree }
    ensures kept { IsKeptTree result.now }
{
    if tree == 0 {
        return &kept.shared.host;
    }
    if tree == 1 {
        return &kept.shared.hyp;
    }
    &kept.guests[(tree - 2) as usize].tree
}
