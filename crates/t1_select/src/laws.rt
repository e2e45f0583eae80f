//! Laws of selection, each as the one clause of a function with nothing to do.
ghost use Rattle.t1_select.specs.Laws.{NoneIsReady, ReadyComesNearer, ReadyIsPicked};

/// None is picked exactly where no bit of a strand is set.
pub fn none_is_ready()
    ensures { NoneIsReady }
{}

/// A ready strand is picked, or comes one place nearer to the front.
pub fn ready_comes_nearer()
    ensures { ReadyComesNearer }
{}

/// A strand that is ready in as many successive picks as there are strands is picked in one of
/// them: with four strands within four picks.
pub fn ready_is_picked()
    ensures { ReadyIsPicked }
{}
