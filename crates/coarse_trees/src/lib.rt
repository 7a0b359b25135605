//! Laws of coarsest trees. Each function does nothing, and its contract is the law.
#![tactic(auto)]

ghost use Rattle.coarse_trees.specs.Laws.{PartsAreOneWord, OneWordOfParts, CoarsestIsCanonical, CoarsestIsTree, FullIsTree, EditKeepsCoarsest, NeededAreNew, FreedAreNeedless, NeedOfMaps, RootIsCoarsest, NoneIsCoarsest};

/// A block can be one word if and only if its parts can, each continues the entry of the first, and a word of the
/// block's depth can encode that entry.
pub fn one_word_in_parts()
    ensures down { PartsAreOneWord }
    ensures up { OneWordOfParts }
{}

/// A map has one coarsest tree, up to the frames of its tables, and no tree of the map has fewer tables.
pub fn coarsest_is_canonical()
    ensures canonical { CoarsestIsCanonical }
    ensures tree { CoarsestIsTree }
    ensures full { FullIsTree }
{}

/// A tree without a mapped page is coarsest, and each change leaves a coarsest tree.
pub fn coarsest_stays()
    ensures root { RootIsCoarsest }
    ensures none { NoneIsCoarsest }
    ensures edit { EditKeepsCoarsest }
{}

/// The tables that a change of a coarsest tree needs and frees follow from the map alone.
pub fn need_by_maps()
    ensures needed { NeededAreNew }
    ensures freed { FreedAreNeedless }
    ensures need { NeedOfMaps }
{}
