//! The laws.
ghost use Rattle.t1_one_fault.specs.Laws.{ATextHasOneFault, ALogHasNoFault};

/// Two errors that name the first fault of one text are one.
pub fn a_text_has_one_fault()
    ensures { ATextHasOneFault }
{}

/// The log of a well-formed report, whose memory and console hold bytes, has no fault.
pub fn a_log_has_no_fault()
    ensures { ALogHasNoFault }
{}
