//! The laws.
ghost use Rattle.t1_fit.specs.Laws.{FittingPartsAreAJointHistory, FittingPartsExist, FittingPartsHaveProperPackets, FittingPartsObeyTso};

/// Where parts fit, at any time, the packets that each core received are proper for the requests that
/// it sent, so each core's rule holds whole.
pub fn fitting_parts_have_proper_packets()
    ensures { FittingPartsHaveProperPackets }
{}

/// Parts that fit, with every strand ended and every buffer empty, are a joint history.
pub fn fitting_parts_are_a_joint_history()
    ensures { FittingPartsAreAJointHistory }
{}

/// Of such parts the order of all accesses by their keys obeys total store order from the image on.
pub fn fitting_parts_obey_tso()
    ensures { FittingPartsObeyTso }
{}

/// Parts that fit and are over exist: a run of one strand that fetches one word.
pub fn fitting_parts_exist()
    ensures { FittingPartsExist }
{}
