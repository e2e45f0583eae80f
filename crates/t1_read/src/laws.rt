//! Laws of well-formed reports.
ghost use Rattle.t1_event.specs.declared.report.Report.{Report};
ghost use Rattle.t1_log.specs.Log.{HasLog};
ghost use Rattle.t1_check.specs.Checked.{CanBeChecked};
ghost use Rattle.t1_take.specs.WellFormed.{IsWellFormed};

/// The order of a well-formed report can be checked.
pub fn well_formed_can_be_checked()
    ensures { (report : Report) → IsWellFormed report → CanBeChecked report }
{}

/// A well-formed report has a log.
pub fn well_formed_is_printable()
    ensures { (report : Report) → IsWellFormed report → HasLog report }
{}
