//! Laws of the definitions of this crate.
ghost use Rattle.t1_plain.specs.Plain.{StartsArePlain, ReplaysStayPlain, PlainStrandsHaveNoHyper};

/// A strand starts without hyperprivileged mode where its configuration leaves it out.
pub fn starts_are_plain()
    ensures { StartsArePlain }
{}

/// Such a strand stays so in each replay, whatever it reads.
pub fn replays_stay_plain()
    ensures { ReplaysStayPlain }
{}

/// There each trap is taken in privileged mode, no mode but that of PSTATE is looked at, and the
/// instructions of hyperprivileged registers are illegal.
pub fn plain_strands_have_no_hyper()
    ensures { PlainStrandsHaveNoHyper }
{}
