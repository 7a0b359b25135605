//! Laws of calls that are judged by their layouts' freedoms. Each function does nothing, and its contract is the laws.
ghost use Rattle.c_judge.specs.Laws.{FoundElse, FoundOnce, UnfoundOnce};

/// A call that is judged is refused only if memory runs out.
pub fn no_refusal()
    ensures { FoundElse }
{}

/// A judgement has one answer.
pub fn one_answer()
    ensures { FoundOnce }
{}

/// A refusal has one reason, the first, unless memory ran out.
pub fn one_reason()
    ensures { UnfoundOnce }
{}
