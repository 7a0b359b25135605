//! Laws of giving frames to a pool. Each function does nothing, and its contract is the law.
ghost use Rattle.hyp_pool.specs.Laws.{GivenSwap, GivenCounted, GivenAppend, GivenBack, GivenLength, GivenCount, GivenContains, AllGivenLength, AllGivenCount, CountContains, CountOnce};

/// Frames that are given one by one make one pool, whatever their order.
pub fn given_in_any_order()
    ensures swap { GivenSwap }
    ensures counted { GivenCounted }
    ensures append { GivenAppend }
{}

/// The lowest frames of a pool, taken and given back, make the pool that was.
pub fn given_back()
    ensures { GivenBack }
{}

/// The frames of a pool after one is given.
pub fn given_one()
    ensures length { GivenLength }
    ensures count { GivenCount }
    ensures contains { GivenContains }
{}

/// The frames of a pool after many are given.
pub fn given_many()
    ensures length { AllGivenLength }
    ensures count { AllGivenCount }
{}

/// A frame is in a list if and only if its count there isn't 0, and it is in a pool at most once.
pub fn counted_frames()
    ensures contains { CountContains }
    ensures once { CountOnce }
{}
