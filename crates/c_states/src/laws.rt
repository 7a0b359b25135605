//! Laws of calls that are judged and predicted.
ghost use Rattle.c_states.specs.Laws.{
  PredictedElse,
  PredictedKnown,
  PredictedOnce,
  PredictedStateElse,
  PredictedStateOnce,
  JudgedElse,
  JudgedOnce,
  LayoutFaultOnce,
  MadeElse,
  PlainFaultOnce,
  UnjudgedOnce,
  UnmadeOnce,
  UnpredictedOnce,
};

/// Lists that are taken, and calls that are judged or predicted, are refused only if memory runs out.
pub fn no_refusal()
    ensures made { MadeElse }
    ensures judged { JudgedElse }
    ensures predicted { PredictedElse }
    ensures state { PredictedStateElse }
{}

/// A judgement and a prediction have one answer.
pub fn one_answer()
    ensures judged { JudgedOnce }
    ensures predicted { PredictedOnce }
    ensures state { PredictedStateOnce }
{}

/// A refusal has one reason, the first, unless memory ran out.
pub fn one_reason()
    ensures layout { LayoutFaultOnce }
    ensures lists { PlainFaultOnce }
    ensures made { UnmadeOnce }
    ensures predicted { UnpredictedOnce }
    ensures judged { UnjudgedOnce }
{}

/// A state that is predicted has known numbers, and nothing twice, if no vCPU past the eighth is loaded.
pub fn predicted_known()
    ensures { PredictedKnown }
{}
