//! What holds of pages and roots.
ghost use Rattle.c_trees.specs.Laws.{OwnTree, TreeFaultOnce, TreesElse};

/// Pages and roots that make trees have no fault, unless memory runs out, and no two other faults are both the first.
pub fn one_answer()
    ensures trees_else { TreesElse }
    ensures fault { TreeFaultOnce }
{}

/// A root with zeros behind its frame has the tree that `c_tables` gives it.
pub fn own_tree()
    ensures { OwnTree }
{}
