//! Laws of the machine after any list of slots.
ghost use Rattle.t1_machine_rule.specs.Laws.{SlotsKeep, MachinesStand, MachinesAreNeverStuck, NoSlotIsLeft, MachinesEndInJointHistories, ReportsObeyTso};

/// After any list of slots each ring holds what was sent less what was received, each core is what its
/// calls made of it, and each destination is what the accesses that it served made of it.
pub fn slots_keep()
    ensures { SlotsKeep }
{}

/// So, where the image is of bytes, the parts of every machine fit: its packets are proper, its caches are
/// those of the log below each core's time, its state is covered, and each request that is unanswered stands
/// in one ring, sent at a time that the log has come to.
pub fn machines_stand()
    ensures { MachinesStand }
{}

/// A machine is never stuck: where no slot is enabled, every strand has ended, and every buffer and ring is
/// empty.
pub fn machines_are_never_stuck()
    ensures { MachinesAreNeverStuck }
{}

/// And where that is so, no slot is enabled.
pub fn no_slot_is_left()
    ensures { NoSlotIsLeft }
{}

/// Where no slot is enabled, the traces and the log are a joint history: they follow the table, the log is
/// covered, and the accesses can be listed by keys, in as much room as the log has.
pub fn machines_end_in_joint_histories()
    ensures { MachinesEndInJointHistories }
{}

/// The order of the accesses by keys lists each once and obeys total store order, and the report with it has
/// a text, where the entry fits its digits.
pub fn reports_obey_tso()
    ensures { ReportsObeyTso }
{}
