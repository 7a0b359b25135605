//! What holds of audits.
ghost use Rattle.pkvm_oracle.specs.Laws.{CheckedElse, CheckedOnce, UncheckedOnce};

/// An audit that is made is refused only if memory runs out, and has one answer, but for which block of a tree or which
/// places it names. One that isn't made has one reason, the first, unless memory ran out.
pub fn one_answer()
    ensures checked_else { CheckedElse }
    ensures checked { CheckedOnce }
    ensures unchecked { UncheckedOnce }
{}
