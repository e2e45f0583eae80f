//! The law.
ghost use Rattle.t1_one_text.specs.Laws.{NoTwoReportsHaveOneText};

/// No two well-formed reports, whose memories and consoles hold bytes, have one text.
pub fn no_two_reports_have_one_text()
    ensures { NoTwoReportsHaveOneText }
{}
