//! What holds of the walk at the model's own words.
ghost use Rattle.walked_tables.specs.Own.{IsPlainOrder, IsPlainWalk};

/// By the model's profile and a root of one page, each page has what `c_tables` gives it, and the same tables are reached in the
/// same order.
pub fn own_words()
    ensures pages { IsPlainWalk }
    ensures tables { IsPlainOrder }
{}
