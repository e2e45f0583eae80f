//! The laws.
ghost use Rattle.t1_reads_back.specs.Laws.{JointHistoriesAreWellFormed, ReportsAreWellFormed};

/// The report of a joint history of a machine in its limits is well formed, where it has a text and an
/// order that lists each access once.
pub fn joint_histories_are_well_formed()
    ensures { JointHistoriesAreWellFormed }
{}

/// The report of a machine in its limits that has ended is well formed, where its entry fits ten
/// hexadecimal digits: a printed log of it reads back as this report.
pub fn reports_are_well_formed()
    ensures { ReportsAreWellFormed }
{}
