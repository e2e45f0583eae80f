//! Laws of the definitions of this crate.
ghost use Rattle.t1_received.specs.Laws.{SendsKeepProper, PacketsKeepProper, CachesFollowPackets, FirstOutIsAnswered};

/// Packets that are proper for the requests of a core were proper before it sent the last of these.
pub fn sends_keep_proper()
    ensures { SendsKeepProper }
{}

/// Packets that are proper were proper without the last of them.
pub fn packets_keep_proper()
    ensures { PacketsKeepProper }
{}

/// One packet more changes a core's caches only above its index, and there as the packet says.
pub fn caches_follow_packets()
    ensures { CachesFollowPackets }
{}

/// Where all requests that a strand has out in a class go to one destination, a reply to that class
/// answers the first of them.
pub fn first_out_is_answered()
    ensures { FirstOutIsAnswered }
{}
