//! The laws.
ghost use Rattle.t1_tso.specs.Laws.{JointHistoriesObeyTso, JointHistoriesAreCovered};

/// The accesses of a joint history, ascending by their keys, are a memory order that obeys total
/// store order from the image on.
pub fn joint_histories_obey_tso()
    ensures { JointHistoriesObeyTso }
{}

/// The log of a joint history is covered: after any number of its commits the tags of each core's L1
/// caches are what the directories show, and each valid line holds its bytes of memory at that time.
pub fn joint_histories_are_covered()
    ensures { JointHistoriesAreCovered }
{}
