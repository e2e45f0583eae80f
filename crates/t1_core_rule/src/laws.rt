//! Laws of the histories of a core.
ghost use Rattle.t1_core_rule.specs.Laws.{RequestsAreMeant, PacketsArePast, ClocksGoOn, TracesAreOfStrands, CoresKeepTheirRule, CachesFollowPackets, PacketsCanBeProper};

/// Whatever packets came, each request of a core is one that its destination may serve.
pub fn requests_are_meant()
    ensures { RequestsAreMeant }
{}

/// Whatever packets came, each has an index below the core's time, or the last index that there is.
pub fn packets_are_past()
    ensures { PacketsArePast }
{}

/// A core's clock is 0 or one past the index of a packet that came, and never falls.
pub fn clocks_go_on()
    ensures { ClocksGoOn }
{}

/// A core has as many traces as strands.
pub fn traces_are_of_strands()
    ensures { TracesAreOfStrands }
{}

/// The rule of a core, whole, for each history of its calls: what it sends is meant for where it goes,
/// and, where the packets that came are proper, what it has out is what is unanswered, its accesses
/// stand in program order where the table of places has them, and each strand is its replay so far.
pub fn cores_keep_their_rule()
    ensures { CoresKeepTheirRule }
{}

/// Where the packets that came are proper, a core's caches are those of the packets below its time.
pub fn caches_follow_packets()
    ensures { CachesFollowPackets }
{}

/// Packets can be proper: a history in which a packet came.
pub fn packets_can_be_proper()
    ensures { PacketsCanBeProper }
{}
