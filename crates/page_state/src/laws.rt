//! Laws of the definitions. Each function does nothing, and its contract is the law.
ghost use Rattle.page_state.specs.Limits.{LargestRow, PastLimitsRow};
ghost use Rattle.page_state.specs.Laws.{UpdateInside, UpdateOutside, CoarsestOnce, CoarsestOfMap, CoarsestExists, FitsEachWord, OneWordMeans, EmptyMeans, BlocksMeet, BlocksOrdered};

/// An update reads as the advanced entry inside its range, and as the map before outside of it.
pub fn update_reads()
    ensures inside { UpdateInside }
    ensures outside { UpdateOutside }
{}

/// A finite map has exactly one coarsest list of runs, and so has each list of runs.
pub fn coarsest_list()
    ensures once { CoarsestOnce }
    ensures of_map { CoarsestOfMap }
    ensures exists { CoarsestExists }
{}

/// The meaning of the tests of blocks: a word can encode an entry, a block can be one word, a block is empty.
pub fn block_tests()
    ensures fits { FitsEachWord }
    ensures one_word { OneWordMeans }
    ensures empty { EmptyMeans }
{}

/// The blocks on a range are those that meet it, each once, by page, the parent before the child.
pub fn blocks_on_range()
    ensures meet { BlocksMeet }
    ensures ordered { BlocksOrdered }
{}

/// Acceptance at the limits of memory, CPUs and logs, and past them.
pub fn limits()
    ensures largest { LargestRow }
    ensures past { PastLimitsRow }
{}
