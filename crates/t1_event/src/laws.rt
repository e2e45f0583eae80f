//! Laws of the definitions of this crate.
ghost use Rattle.t1_event.specs.FlatMemory.{OneStrandObeysTso};

/// One strand on one flat memory, which each access acts on at once, obeys total store order: the
/// list of its accesses in program order is a memory order, and obeys it from the memory that the
/// strand began with.
pub fn one_strand_obeys_tso()
    ensures { OneStrandObeysTso }
{}
