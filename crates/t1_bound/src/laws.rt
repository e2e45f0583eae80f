//! Laws of the steps of the serial machine.
ghost use Rattle.t1_bound.specs.Laws.{RunsEnd, StepsAreBounded, StepsArePaid, TheLogHasRoom, TheLogIsNoLongerThanTheSteps};

/// In any list of slots from a start, those that were enabled when they were done are at most 24 for
/// each unit that the strands did and each strand, and at most 24 for each unit of the budgets.
pub fn steps_are_bounded()
    ensures { StepsAreBounded }
{}

/// The account of it: steps that were done, with the tokens of what is left to do in the units that
/// are under way.
pub fn steps_are_paid()
    ensures { StepsArePaid }
{}

/// The log has at most as many records as steps were done.
pub fn the_log_is_no_longer_than_the_steps()
    ensures { TheLogIsNoLongerThanTheSteps }
{}

/// The log never outgrows its room, of 2 commits for each unit of the budgets, and is below it
/// wherever an access waits for admission.
pub fn the_log_has_room()
    ensures { TheLogHasRoom }
{}

/// A run by a schedule ends, from any machine that a list of slots leads to, and has at most as many
/// slots as that machine weighs.
pub fn runs_end()
    ensures { RunsEnd }
{}
