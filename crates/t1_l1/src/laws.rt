//! Laws of a cache, each as the one clause of a function with nothing to do.
ghost use Rattle.t1_l1.specs.Laws.{PointersAreWays};

/// The victim of an address is a way of the cache, whatever was filled before: a request that asks
/// for it names a way that there is.
pub fn pointers_are_ways()
    ensures { PointersAreWays }
{}
