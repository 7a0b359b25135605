//! What holds of pages and roots.
ghost use Rattle.c_tables.specs.Laws.{TreeFaultOnce, TreesElse};

/// Pages and roots that make trees have no fault, unless memory runs out, and no two other faults are both the first.
pub fn one_answer()
    ensures trees_else { TreesElse }
    ensures fault { TreeFaultOnce }
{}
