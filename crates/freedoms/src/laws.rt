//! Laws of judges with freedoms. Each function does nothing, and its contract is the law.
ghost use Rattle.freedoms.specs.Laws.{AbortInView, AbortOfAnyKind, AmpleSteps, BareSteps, FinishesRoot, HoldsAsMany, JudgedByMaps, JudgedByPredicted, JudgedFromAny, JudgedInView, MoreLetsThrough, NoMoreIsOwn, PoolsByRows, ReclaimsByRows, ReclaimsOfAny, ReclaimsSpare, RefusalsStay, StepsJudged, StepsOfAny, ViewSteps};
ghost use Rattle.freedoms.specs.Seen.{ReadsSeen, SeenByPredicted};

/// A step of the model is also a step without the test of the pools, and such a step gives the same without tables and
/// free frames.
pub fn ample_steps()
    ensures steps { AmpleSteps }
    ensures bare { BareSteps }
{}

/// The judgement with own tables and the judgement of the state without tables agree; each step of the model is judged
/// to agree, whatever tables and free frames are reported for both states. The judgement by maps takes one step of the
/// model.
pub fn judged_by_maps()
    ensures maps { JudgedByMaps }
    ensures steps { StepsJudged }
    ensures told { JudgedByPredicted }
{}

/// The frames of a guest's pool that steps give back, whatever the pool's order and the tree's tables: their rows have
/// the pool as their use.
pub fn pool_frames()
    ensures reclaims { ReclaimsSpare }
    ensures finishes { FinishesRoot }
    ensures many { HoldsAsMany }
{}

/// Which legal state the judgement begins in doesn't matter: any two that differ only in tables and free frames make
/// the same steps. In one of them the pool of a guest is exactly the frames of its rows.
pub fn any_state()
    ensures steps { StepsOfAny }
    ensures reclaims { ReclaimsOfAny }
    ensures judged { JudgedFromAny }
    ensures pools { PoolsByRows }
    ensures rows { ReclaimsByRows }
{}

/// The judge with more freedoms accepts all that the judge with own tables does; a step gives the same in the view that
/// freedoms leave of a state.
pub fn more_freedoms()
    ensures none { NoMoreIsOwn }
    ensures more { MoreLetsThrough }
    ensures view { ViewSteps }
    ensures judged { JudgedInView }
    ensures abort { AbortInView }
    ensures kind { AbortOfAnyKind }
    ensures refusals { RefusalsStay }
{}

/// A judgement with freedoms follows from the model's step in the view that they leave of the state before, and that of
/// a read from its step of the state itself without tables.
pub fn seen_by_predicted()
    ensures seen { SeenByPredicted }
    ensures reads { ReadsSeen }
{}
