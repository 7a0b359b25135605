//! Laws of judgements up to the freedoms. Each function does nothing, and its contract is the laws.
ghost use Rattle.page_state.specs.LayoutView.{layout_of};
ghost use Rattle.free_judge.specs.Laws.{
  FirstElse,
  FirstOnce,
  FoundWhere,
  HasLowMemory,
  JudgedFreelyOnce,
  NoFalseAlarm,
  PredictedFreelyOnce,
  ReadyOnce,
};

use page_state::Layout;

/// A judgement finds nothing if and only if some legal state like the one before makes the step; and it finds nothing in
/// a step of the model.
pub fn judged()
    ensures found { FoundWhere }
    ensures steps { NoFalseAlarm }
{}

/// Each layout's memory lies below page 2^26: this was accepted of its regions.
pub fn memory_is_low(layout: &Layout)
    ensures { HasLowMemory (layout_of layout.now) }
{
    let _regions = layout.map.regions();
}

/// A judgement and a prediction have one answer, and the model steps from one state.
pub fn one_answer()
    ensures first { FirstOnce }
    ensures first_else { FirstElse }
    ensures ready { ReadyOnce }
    ensures judged { JudgedFreelyOnce }
    ensures predicted { PredictedFreelyOnce }
{}
