//! Laws of the memory order.
ghost use Rattle.t1_order.specs.Joint.{JointHistoriesAreOrderable};
ghost use Rattle.t1_order.specs.Unique.{OrdersByKeysAreUnique};

/// Two memory orders of the same traces that ascend by keys are one.
pub fn orders_by_keys_are_unique()
    ensures { OrdersByKeysAreUnique }
{}

/// The traces and the log of a joint history are orderable, where the traces are few and short: its log
/// names the accesses that are placed as commits, and along a strand the times of the others never fall.
pub fn joint_histories_are_orderable()
    ensures { JointHistoriesAreOrderable }
{}
