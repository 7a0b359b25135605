//! Laws of audits.
ghost use Rattle.table_audit.specs.Laws.{FindingOnce, WellElse};

/// There is no finding if all agrees and is sound, otherwise one; only which block of a tree or which places it names
/// is left open.
pub fn one_answer()
    ensures well_else { WellElse }
    ensures finding { FindingOnce }
{}
