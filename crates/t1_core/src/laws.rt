//! Laws of a core, each as the one clause of a function with nothing to do.
ghost use Rattle.t1_core.specs.Laws.{StrandsAreReplays, TimesRise, OnlyPacketsChangeCaches};

/// Each strand of a core is the replay so far of the values that its reads got, from its start and
/// after every call, whatever packets come.
pub fn strands_are_replays()
    ensures { StrandsAreReplays }
{}

/// A core's time never falls, nor do the times of the Hit and Forward items along a strand, whatever
/// packets come.
pub fn times_rise()
    ensures { TimesRise }
{}

/// Exec and drain leave both caches as they are.
pub fn only_packets_change_caches()
    ensures { OnlyPacketsChangeCaches }
{}
